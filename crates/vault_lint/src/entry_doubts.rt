//! The doubts of one entry, each by itself.
ghost use Rattle.std.specs.Prelude.{◌≡◌, ◌<◌, length};
ghost use Rattle.vault_lint.specs.EntryDoubts.{beside_period, ended, entry_list, late, late_need, milliseconds, near_margin, need_past, not_needed, only_if, over_max};

use crate::judging::{is_open, is_token_like, is_told, written_margin};
use crate::limits::limit;
use crate::place::has_key;
use crate::subject::Subject;
use crate::what::{EntryDoubt, Whole};
use base_moment::LAST;
use vault_inventory::{Key, Terms};

/// The first second after the year 2999.
pub(crate) const YEAR_3000: u64 = 32_503_680_000;

/// The longest duration that is not doubted, in seconds: 90 days.
pub(crate) const LONG_STEP: u32 = 7_776_000;

/// All of them, in the order in which they are said: those of its name and file, of its moments, of its terms and of its need.
#[tactic(auto, unfolding(crate::specs::EntryDoubts::entry_list))]
pub(crate) fn entry_list(
    subject: &Subject,
    whole: Option<Whole>,
    index: u32,
) -> [Option<EntryDoubt>; 16]
    requires { index < length subject.now.inventory.forest.entries }
    ensures { result ≡ entry_list subject.now whole index }
{
    let entry = subject.inventory.forest().get(index);
    let terms = subject.inventory.terms(index);
    let at = subject.at.get();
    let lacks_step = terms.period == 0 && !has_key(&subject.places, index, Key::Increment, true);
    [
        only_if(is_token_like(entry.name.list()), EntryDoubt::TokenLike),
        only_if(
            is_open(&subject.open_files, index as usize),
            EntryDoubt::OpenFile,
        ),
        only_if(terms.issued.get() > entry.end, EntryDoubt::Swapped),
        late(Key::Issued, terms.issued.get()),
        late(Key::End, entry.end),
        late_need(entry.need),
        ended(is_told(subject, index), &terms, entry.end, at),
        milliseconds(Key::Increment, terms.increment.unwrap_or(0)),
        milliseconds(Key::Period, terms.period),
        over_max(&terms),
        beside_period(&terms),
        only_if(lacks_step, EntryDoubt::NoStep),
        near_margin(entry.step, written_margin(subject)),
        need_past(entry.need, at, whole),
        not_needed(subject.carried.need(index), whole),
        limit(subject, index),
    ]
}

fn only_if(holds: bool, what: EntryDoubt) -> Option<EntryDoubt>
    ensures { result ≡ only_if holds what }
{
    if holds { Some(what) } else { None }
}

// A moment past the year 3000: milliseconds, perhaps.
fn late(key: Key, moment: u64) -> Option<EntryDoubt>
    ensures { result ≡ late key moment }
{
    only_if(moment > YEAR_3000, EntryDoubt::Late(key))
}

// The same of a need, where the last moment stands for `always`.
fn late_need(need: u64) -> Option<EntryDoubt>
    ensures { result ≡ late_need need }
{
    if need == LAST {
        return None;
    }
    late(Key::Need, need)
}

// An end that is past, of an entry whose issue and end are written.
fn ended(is_told: bool, terms: &Terms, end: u64, at: u64) -> Option<EntryDoubt>
    ensures { result ≡ ended is_told terms.now end at }
{
    let is_sound = is_told && terms.issued.get() <= end;
    only_if(is_sound && end <= at, EntryDoubt::Ended(end))
}

// A duration that is long and a whole number of thousands: milliseconds, perhaps.
fn milliseconds(key: Key, seconds: u32) -> Option<EntryDoubt>
    ensures { result ≡ milliseconds key seconds }
{
    only_if(
        seconds > LONG_STEP && seconds % 1000 == 0,
        EntryDoubt::Milliseconds(key, seconds),
    )
}

// An increment that is longer than the maximum TTL.
fn over_max(terms: &Terms) -> Option<EntryDoubt>
    ensures { result ≡ over_max terms.now }
{
    let asked = terms.increment.unwrap_or(0);
    only_if(
        terms.period == 0 && asked > terms.max_ttl,
        EntryDoubt::OverMax(asked, terms.max_ttl),
    )
}

// An increment beside another period.
fn beside_period(terms: &Terms) -> Option<EntryDoubt>
    ensures { result ≡ beside_period terms.now }
{
    let asked = terms.increment.unwrap_or(0);
    only_if(
        terms.period != 0 && asked != 0 && asked != terms.period,
        EntryDoubt::BesidePeriod,
    )
}

// A step for which the agent uses a margin of its own.
fn near_margin(step: u32, margin: Option<u32>) -> Option<EntryDoubt>
    ensures { result ≡ near_margin step margin }
{
    match margin {
        None => None,
        Some(margin) => only_if(
            u64::from(step) * 3 < u64::from(margin) * 4,
            EntryDoubt::NearMargin(step),
        ),
    }
}

// A need that is past, where not all are.
fn need_past(need: u64, at: u64, whole: Option<Whole>) -> Option<EntryDoubt>
    ensures { result ≡ need_past need at whole }
{
    let all_are = matches!(whole, Some(Whole::AllPast));
    only_if(
        need > 0 && need <= at && !all_are,
        EntryDoubt::NeedPast(need),
    )
}

// No need, here or under it, where some entry has one.
fn not_needed(carried: u64, whole: Option<Whole>) -> Option<EntryDoubt>
    ensures { result ≡ not_needed carried whole }
{
    let none_is = matches!(whole, Some(Whole::NoNeeds));
    only_if(carried == 0 && !none_is, EntryDoubt::NotNeeded)
}
