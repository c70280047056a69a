ghost use Rattle.std.specs.Prelude.{◌≡◌, ◌≤◌};
ghost use Rattle.watch_machine.specs.code.Bounds.{IsEnd, IsTrack};
ghost use Rattle.watch_machine.specs.Pauses.{cap, cap_of, doubled, left_to, pause};

use crate::reading::Millis;
use crate::track::{End, Track, Try};

/// Five minutes, the longest pause.
pub const LONGEST: Millis = 300_000;

/// The milliseconds from `at` to an end, where that is ahead. An unknown end counts as so much ahead after a loss.
fn left_to(at: Millis, twice: Millis, end: End, lost: bool) -> Option<Millis>
    requires { IsEnd end }
    ensures { result ≡ left_to at twice end lost }
{
    match end {
        End::Unknown => { if lost { Some(twice) } else { None } }
        End::At(end) => {
            let end = end * 1000;
            if at < end { Some(end - at) } else { None }
        }
        End::Never => None,
    }
}

/// A sixteenth of what is left, but at least a second; at most half a minute where the failure was a loss and little is left,
/// else five minutes.
fn cap_of(twice: Millis, lost: bool, left: Option<Millis>) -> Millis
    ensures value { result ≡ cap_of twice lost left }
    ensures within { result ≤ 300000 }
{
    match left {
        None => LONGEST,
        Some(left) => {
            let most = if lost && left <= twice {
                30_000
            } else {
                LONGEST
            };
            (left / 16).max(1000).min(most)
        }
    }
}

/// The longest pause of an entry after this try.
#[tactic(auto, unfolding(crate::specs::Pauses::cap))]
pub(crate) fn cap(margin: u32, at: Millis, track: Track, attempt: Try) -> Millis
    requires { IsTrack track }
    ensures value { result ≡ cap margin at track attempt }
    ensures within { result ≤ 300000 }
{
    let twice = 2 * margin as u64 * 1000;
    cap_of(
        twice,
        attempt.lost,
        left_to(at, twice, track.end, attempt.lost),
    )
}

/// A second, doubled by each failure after the first, by twenty at most.
pub(crate) fn doubled(times: u32) -> Millis
    ensures { result ≡ doubled times }
{
    1000 * 2u64.pow(times.min(20).saturating_sub(1))
}

/// The pause of an entry after this try.
#[tactic(auto, unfolding(crate::specs::Pauses::pause))]
pub(crate) fn pause(margin: u32, at: Millis, track: Track, attempt: Try) -> Millis
    requires { IsTrack track }
    ensures value { result ≡ pause margin at track attempt }
    ensures within { result ≤ 300000 }
{
    doubled(attempt.fails).min(cap(margin, at, track, attempt))
}
