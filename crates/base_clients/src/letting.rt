//! Who has been idle longest, and makes room for another; and by when the first of them is sent away.
ghost use Rattle.std.specs.Prelude.{◌≡◌, ◌≤◌, vec_capacity, vec_len};
ghost use Rattle.std.specs.List.{position};
ghost use Rattle.base_device.specs.Moments.{earlier};
ghost use Rattle.base_clients.specs.Tables.{first_by, idle_since, is_idle_since, with_place};

use crate::guest::Guest;

/// Since when the one of them has been idle that has been so longest, `None` where none is read or written to.
pub(crate) fn idle_since<T>(guests: &[Guest<T>]) -> Option<u64>
    ensures { result ≡ idle_since guests.now }
{
    let mut since = None;
    let mut at = guests.len();
    while at > 0 {
        at -= 1;
        if guests[at].stage.is_busy() {
            since = Some(earlier(guests[at].moved, since));
        }
    }
    since
}

/// The moment by which the first of those has to be read or written to that are, `None` where none is.
pub(crate) fn first_by<T>(guests: &[Guest<T>]) -> Option<u64>
    ensures { result ≡ first_by guests.now }
{
    let mut by = None;
    let mut at = guests.len();
    while at > 0 {
        at -= 1;
        if guests[at].stage.is_busy() {
            by = Some(earlier(guests[at].by, by));
        }
    }
    by
}

/// The earlier of two moments, of which there may be one alone.
fn earlier(n: u64, other: Option<u64>) -> u64
    ensures { result ≡ earlier n other }
{
    match other {
        None => n,
        Some(m) => n.min(m),
    }
}

/// The place of the first of those that have been idle since that moment.
fn place_of<T>(guests: &[Guest<T>], since: u64) -> Option<usize>
    ensures { result ≡ position (is_idle_since since) guests.now }
{
    guests
        .iter()
        .position(|guest| guest.stage.is_busy() && guest.moved == since)
}

/// Pushes out the one that has been idle longest, where there are as many as may be.
pub(crate) fn make_place<T: Drop>(guests: &mut Vec<Guest<T>>, most: usize)
    ensures guests { guests.new.items ≡ with_place most guests.old.items }
    ensures len { vec_len guests.new ≤ vec_len guests.old }
    ensures capacity { vec_capacity guests.new ≡ vec_capacity guests.old }
{
    if guests.len() < most {
        return;
    }
    if let Some(since) = idle_since(guests) {
        if let Some(place) = place_of(guests, since) {
            let _idle = guests.remove(place);
        }
    }
}
