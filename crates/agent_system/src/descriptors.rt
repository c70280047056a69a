//! The descriptors that the process may have open at once, and how many guests of the agent they leave room for. A client must not take
//! the descriptor that a request needs: a renewal that cannot open its socket is a renewal that is not sent.
ghost use Rattle.std.specs.Prelude.{◌≡◌, ◌≤◌, ◌+◌, IfOk, nat_lt, true};
ghost use Rattle.agent_system.specs.Descriptors.{ArePlaces, WarnsIf, few_text, needed, needed_ahead, places_within};

use agent_answers::{MOST_CLIENTS, MOST_ONLOOKERS};
use agent_log::Desk;
use base_clock::Reading;
use base_files::Inputs;
use base_log::Level;
use base_words::push_number;
use std::alloc::{AllocError, Global};

/// Where Linux tells the limits of a process (proc(5)).
const LIMITS: &str = "/proc/self/limits";

/// The bytes of that file at most: it has some 1,300.
const MOST_LIMITS: usize = 8192;

/// How many guests the agent lets in at a time.
#[derive(Clone, Copy, Debug, PartialEq, Eq)]
pub struct Places {
    pub clients: usize,
    pub onlookers: usize,
}

/// The descriptors that an agent with so many lanes needs, if one client and one onlooker are to be let in beside its requests: three for
/// each lane, one for a request of the Watch, and two for the lookup of what a file holds, its own and one by which the wait is told of
/// it; and 26 for all else, which are 13 that stay open, eight for the files of a change, some to spare, and those of the two guests.
/// Behind another agent it looks ahead, over as many lanes besides.
fn needed(width: u32, is_behind: bool) -> u64
    requires { width ≤ 32 }
    ensures { result ≡ needed width is_behind }
{
    26 + (3 * u64::from(width) + needed_ahead(width, is_behind))
}

/// What looking ahead needs: a descriptor for each lane, and one by which the wait is told of them.
fn needed_ahead(width: u32, is_behind: bool) -> u64
    ensures value { result ≡ needed_ahead width is_behind }
    ensures most { result ≤ width + 1 }
{
    if is_behind { u64::from(width) + 1 } else { 0 }
}

/// How many guests an agent with so many lanes lets in where so many descriptors may be open at once: what it does not need itself goes to
/// onlookers, a third of it, and to clients; one of each is always let in.
pub fn places_within(limit: u64, width: u32, is_behind: bool) -> Places
    requires { width ≤ 32 }
    ensures places { result ≡ places_within limit width is_behind }
    ensures fits { needed width is_behind ≤ limit → needed width is_behind + result.clients + result.onlookers ≤ limit + 2 }
{
    let free = limit.saturating_sub(needed(width, is_behind));
    let third = free / 3;
    Places {
        clients: 1 + (free - third).min(MOST_CLIENTS as u64 - 1) as usize,
        onlookers: 1 + third.min(MOST_ONLOOKERS as u64 - 1) as usize,
    }
}

/// How many guests an agent with so many lanes lets in. Where the system does not tell how many descriptors may be open at once, as many
/// as there can be; where it allows fewer than are needed, that is a warning.
#[tactic(auto, using(crate::proofs::Taking::are_places))]
pub fn places_for<I: Inputs>(
    alloc: Global,
    inputs: &mut I,
    width: u32,
    is_behind: bool,
    now: Reading,
    desk: &mut Desk,
) -> Places
    requires { width ≤ 32 }
    ensures { ArePlaces now width is_behind result desk.old desk.new }
{
    let limit = descriptor_limit(alloc, inputs).unwrap_or(u64::MAX);
    warn_if(alloc, now, limit, needed(width, is_behind), desk);
    places_within(limit, width, is_behind)
}

/// Warns where fewer descriptors may be open than are needed, unless memory is wanting for the words.
fn warn_if(alloc: Global, now: Reading, limit: u64, needed: u64, desk: &mut Desk)
    ensures { WarnsIf (nat_lt limit needed) now (few_text limit needed) desk.old desk.new }
{
    if limit < needed {
        warn(alloc, now, limit, needed, desk);
    }
}

/// Warns of too few descriptors, unless memory is wanting for the words.
#[tactic(auto, using(crate::proofs::Saying::wants_words))]
fn warn(alloc: Global, now: Reading, limit: u64, needed: u64, desk: &mut Desk)
    ensures { WarnsIf true now (few_text limit needed) desk.old desk.new }
{
    if let Ok(text) = few_text(alloc, limit, needed) {
        desk.hear_at_start(alloc, now, Level::Warning, "descriptors", &text);
    }
}

fn few_text(alloc: Global, limit: u64, needed: u64) -> Result<Vec<u8>, AllocError>
    ensures { IfOk result (λ text. text.items ≡ few_text limit needed) }
{
    let mut text = Vec::new(alloc);
    push_number(alloc, limit, &mut text)?;
    text.extend_from_slice(b" may be open at once, and ")?;
    push_number(alloc, needed, &mut text)?;
    text.extend_from_slice(b" are needed")?;
    Ok(text)
}

/// How many descriptors the process may have open at once. `None` where the system does not tell.
fn descriptor_limit<I: Inputs>(alloc: Global, inputs: &mut I) -> Option<u64> {
    match inputs.read(alloc, LIMITS, MOST_LIMITS) {
        Ok(text) => limit_in(text.list()),
        Err(_) => None,
    }
}

/// What the row of open files says of the soft limit. A limit of `unlimited` is none.
fn limit_in(limits: &[u8]) -> Option<u64> {
    for line in limits.split(|byte| *byte == b'\n') {
        if let Some(row) = line.strip_prefix(b"Max open files") {
            return first_number(row.trim_ascii_start());
        }
    }
    None
}

/// The number with which a text begins.
fn first_number(text: &[u8]) -> Option<u64> {
    let end = text
        .iter()
        .position(|byte| !byte.is_ascii_digit())
        .unwrap_or(text.len());
    str::from_utf8(&text[..end]).ok()?.parse().ok()
}
