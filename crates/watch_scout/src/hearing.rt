//! What the watch is told of an answer to a lookup.
ghost use Rattle.std.specs.Prelude.{◌≡◌, ◌<◌, length};
ghost use Rattle.watch_scout.specs.Hearing.{end_told, event_by, event_of, freed, is_later, is_news};

use crate::scout::{Scout, Seen};
use crate::second::second;
use base_moment::Span;
use watch_machine::{End, Millis, Seconds, Watch, WatchEvent, WatchReply};

/// Whether an end is later than the believed one, where that is known.
fn is_later(believed: End, end: Seconds) -> bool
    ensures { result ≡ is_later believed end }
{
    match believed {
        End::Unknown => false,
        End::At(believed) => believed < end,
        End::Never => false,
    }
}

/// Whether the watch is to be told of this end of an entry: the entry is not out, and the end is later than the believed one, and
/// ahead.
#[tactic(auto, unfolding(crate::specs::Hearing::is_news))]
fn is_news(watch: &Watch, entry: u32, end: Seconds) -> bool
    requires { entry < length watch.now.forest.entries }
    ensures { result ≡ is_news watch.now entry end }
{
    let track = watch.track(entry);
    !track.out && is_later(track.end, end) && second(watch.clocks().at) < end
}

/// The end that so many seconds tell, which count from the clock at which the lookup went out.
fn end_told(since: Millis, seconds: Span) -> Seconds
    ensures { result ≡ end_told since seconds }
{
    second(since) + u64::from(seconds)
}

/// What becomes known by a reply to a lookup that went out at that clock.
fn event_by(watch: &Watch, entry: u32, since: Millis, reply: WatchReply) -> Option<WatchEvent>
    requires { entry < length watch.now.forest.entries }
    ensures { result ≡ event_by watch.now entry since reply }
{
    let WatchReply::Told {
        seconds,
        renewable,
        ..
    } = reply
    else {
        return None;
    };
    let end = end_told(since, seconds);
    if !is_news(watch, entry, end) {
        return None;
    }
    Some(WatchEvent::Known {
        entry,
        end,
        renewable,
    })
}

impl Scout {
    /// Takes the answer to a lookup, whose lane is free from then on, and gives the event that the watch is to be handed, if any: an end
    /// that is later than the believed one. Every other answer is dropped, and so is one to no lookup that is out; the watch then asks
    /// at its own time.
    #[tactic(auto, unfolding(crate::specs::Hearing::event_of, crate::specs::Hearing::freed))]
    pub fn answer(&mut self, watch: &Watch, entry: u32, reply: WatchReply) -> Option<WatchEvent>
        requires within { entry < length watch.now.forest.entries }
        requires count { length self.old.seen ≡ length watch.now.forest.entries }
        ensures event { result ≡ event_of self.old watch.now entry reply }
        ensures state { self.new ≡ freed self.old entry }
    {
        let seen = self.seen(entry);
        let since = seen.since?;
        self.set_seen(
            entry,
            Seen {
                since: None,
                ..seen
            },
        );
        self.out = self.out.saturating_sub(1);
        event_by(watch, entry, since, reply)
    }
}
