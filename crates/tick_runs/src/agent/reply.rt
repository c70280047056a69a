//! The event that a reply to a renewal gives.
ghost use Rattle.std.specs.Prelude.{◌≡◌, IfOk};
ghost use Rattle.tick_keeper.specs.Refusal.{TellsSpan};
ghost use Rattle.tick_runs.specs.Replies.{event_of, told_of_body};

use plan_forest::Kind;
use std::alloc::{AllocError, Global};
use tick_keeper::Event;
use vault_exchange::renewed_in;
use vault_http::Reply;
use vault_json::Renewed;

/// The event that a reply to the request for an entry gives; `None`: no reply came, or none that could be read. The only
/// error is lack of memory.
#[tactic(auto, unfolding(crate::specs::Replies::event_of))]
pub fn event_from(
    alloc: Global,
    kind: Kind,
    id: &[u8],
    i: u32,
    reply: &Option<Reply>,
) -> Result<Event, AllocError>
    ensures is { IfOk result (λ event. event ≡ event_of kind id.now i reply.now) }
    ensures span { IfOk result TellsSpan }
{
    let Some(reply) = reply else {
        return Ok(Event::Lost(i));
    };
    if reply.status == 200 {
        return Ok(told_of(i, renewed_in(alloc, kind, id, reply.body.list())?));
    }
    if (400 <= reply.status) & (reply.status < 500) & (reply.status != 429) {
        return Ok(Event::Refused(i));
    }
    Ok(Event::Lost(i))
}

// The event of what a body tells of the entry, if it tells something.
fn told_of(i: u32, renewed: Option<Renewed>) -> Event
    ensures is { result ≡ told_of_body i renewed }
    ensures span { TellsSpan result }
{
    match renewed {
        Some(renewed) => Event::Told {
            i,
            seconds: renewed.seconds as u64,
            renewable: renewed.renewable,
        },
        None => Event::Lost(i),
    }
}
