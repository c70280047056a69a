ghost use Rattle.std.specs.Prelude.{◌≡◌, ◌+◌, ◌<◌, ◌≤◌, ◌∷◌, ◌↔◌, length, Some, IsTrue};
ghost use Rattle.std.specs.List.Sorted.{IsPermutation};
ghost use Rattle.base_moment.specs.declared.moment.TheConstants.{LAST};
ghost use Rattle.plan_schedule.specs.code.Groups.{IsFiled, IsGrouped, IsTurnOfGroups, SettlesGroups};
ghost use Rattle.plan_schedule.specs.code.Line.{IsFirstInLine, Spot, spot};
ghost use Rattle.plan_schedule.specs.Prospect.{terms_of};
ghost use Rattle.plan_schedule.specs.Terms.{Ahead};

use crate::line::Line;
use crate::outlook::Outlook;

/// The entries that fall short: those that wait are bound by their present end, those that have joined by the last wake-up
/// and their step. Each waits first, joins once, and leaves for good.
#[derive(Drop)]
pub(crate) struct Groups {
    pub(crate) waits: Line,
    pub(crate) joined: Line,
}

/// What forces the next wake-up: nothing, one that waits, or one that has joined.
#[derive(Clone, Copy)]
pub(crate) enum Next {
    Done,
    Waiting(u32),
    Joined(u32),
}

/// What is to be done with the groups after a wake-up: the first that has joined leaves, since it has reached its need;
/// the first that waits comes before it; it stands; or there is none.
#[derive(Clone, Copy)]
enum Turn {
    Leaves(u32),
    Comes(u32),
    Steady(u32),
    Empty,
}

impl Groups {
    /// Takes out the first that has joined.
    fn leave(&mut self)
        ensures joined { (x : Spot) → IsFirstInLine self.old.joined.spots x → IsPermutation self.old.joined.spots (x ∷ self.new.joined.spots) }
        ensures room { self.new.joined.room ≡ self.old.joined.room }
        ensures waits { self.new.waits ≡ self.old.waits }
    {
        self.joined.drop_first();
    }

    /// Moves the first that waits to those that have joined.
    pub(crate) fn join(&mut self, outlook: &Outlook, index: u32)
        requires first { IsFirstInLine self.old.waits.spots (spot ((terms_of outlook.now).end index) index) }
        requires filed { IsFiled outlook.now self.old }
        ensures waits { IsPermutation self.old.waits.spots (spot ((terms_of outlook.now).end index) index ∷ self.new.waits.spots) }
        ensures joined { IsPermutation (spot ((terms_of outlook.now).step index) index ∷ self.old.joined.spots) self.new.joined.spots }
        ensures room { self.old.joined.room ≤ self.new.joined.room }
    {
        self.waits.drop_first();
        self.joined.add(outlook.step(index), index);
    }
}

/// What is to be done with the groups after a wake-up at `at`.
fn turn_at(outlook: &Outlook, groups: &Groups, at: u64) -> Turn
    requires filed { IsFiled outlook.now groups.now }
    requires within { at ≤ LAST }
    ensures { IsTurnOfGroups outlook.now at groups.now result }
{
    let Some(head) = groups.joined.first() else {
        return match groups.waits.first() {
            None => Turn::Empty,
            Some(front) => Turn::Comes(front),
        };
    };
    let until = at + outlook.step(head);
    if outlook.need(head) <= until {
        return Turn::Leaves(head);
    }
    match groups.waits.first() {
        None => Turn::Steady(head),
        Some(front) => {
            if is_ahead(outlook.end(front), front, until, head) {
                Turn::Comes(front)
            } else {
                Turn::Steady(head)
            }
        }
    }
}

/// Whether the first entry ends before the second, or with it and has the lower index.
fn is_ahead(end: u64, index: u32, other_end: u64, other: u32) -> bool
    ensures { IsTrue result ↔ Ahead end index other_end other }
{
    end < other_end || (end == other_end && index <= other)
}

/// Moves entries between the groups until it shows what forces the wake-up after the one at `at`.
pub(crate) fn settle(outlook: &Outlook, groups: &mut Groups, at: u64) -> Next
    requires grouped { IsGrouped outlook.now (Some at) groups.old }
    requires within { at ≤ LAST }
    ensures { SettlesGroups outlook.now at groups.old groups.new result }
{
    loop {
        match turn_at(outlook, groups, at) {
            Turn::Leaves(_) => groups.leave(),
            Turn::Comes(front) => {
                if at + outlook.step(front) < outlook.end(front) {
                    return Next::Waiting(front);
                }
                groups.join(outlook, front);
            }
            Turn::Steady(head) => return Next::Joined(head),
            Turn::Empty => return Next::Done,
        }
    }
}
