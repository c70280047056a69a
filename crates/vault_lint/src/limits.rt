//! Why no renewal leads to a need: the ceilings and the ends of an entry and of those over it.
ghost use Rattle.std.specs.Prelude.{◌≡◌, ◌+◌, ◌^◌, ◌<◌, ◌≤◌, IfSome, length};
ghost use Rattle.plan_forest.specs.declared.forest.TheConstants.{END_MAX};
ghost use Rattle.vault_lint.specs.Limits.{days_limit, is_written_max, limit, limit_at, limit_in, life_of, past_ceiling, past_end, past_life, told_limit, untold_limit};

use crate::judging::is_told;
use crate::subject::Subject;
use crate::what::EntryDoubt;
use base_moment::LAST;
use plan_forest::Entry;
use vault_inventory::{SYSTEM_MAX, Terms};

/// The longest life under which a need that is `always` is doubted, in seconds: a day.
const SHORT_LIFE: u64 = 86_400;

/// Why no renewal leads to the need of the entry at an index, unless it is reissued: the first such reason of it and of those over it.
#[tactic(auto, unfolding(crate::specs::Limits::limit))]
pub(crate) fn limit(subject: &Subject, index: u32) -> Option<EntryDoubt>
    requires { index < length subject.now.inventory.forest.entries }
    ensures { result ≡ limit subject.now index }
{
    let need = subject.inventory.forest().get(index).need;
    if need <= subject.at.get() || subject.inventory.terms(index).reissued {
        return None;
    }
    limit_in(subject, need, index)
}

// The first reason of an entry and of those over it.
fn limit_in(subject: &Subject, need: u64, index: u32) -> Option<EntryDoubt>
    requires { index < length subject.now.inventory.forest.entries }
    ensures { result ≡ limit_in subject.now need index }
{
    if let Some(what) = limit_at(subject, need, index) {
        return Some(what);
    }
    match subject.inventory.forest().get(index).parent {
        None => None,
        Some(parent) => limit_in(subject, need, parent),
    }
}

// The reason of one entry alone.
#[tactic(auto, unfolding(crate::specs::Limits::limit_at))]
fn limit_at(subject: &Subject, need: u64, over: u32) -> Option<EntryDoubt>
    requires { over < length subject.now.inventory.forest.entries }
    ensures { result ≡ limit_at subject.now need over }
{
    let terms = subject.inventory.terms(over);
    let entry = subject.inventory.forest().get(over);
    if need == LAST {
        days_limit(over, &terms)
    } else if is_told(subject, over) {
        told_limit(need, over, entry, &terms)
    } else {
        untold_limit(subject, need, over, &terms)
    }
}

// Of an entry that is needed always: it lives a day or less.
fn days_limit(over: u32, terms: &Terms) -> Option<EntryDoubt>
    ensures { result ≡ days_limit over terms.now }
{
    match life_of(terms) {
        Some(life) if life <= SHORT_LIFE => Some(EntryDoubt::ShortLife(over, life)),
        _ => None,
    }
}

// By an issue and an end that are written: the ceiling, and the end where it cannot be renewed.
fn told_limit(need: u64, over: u32, entry: &Entry, terms: &Terms) -> Option<EntryDoubt>
    ensures { result ≡ told_limit need over entry.now terms.now }
{
    match terms.ceiling() {
        None => past_end(need, over, entry),
        Some(ceiling) => past_ceiling(need, over, entry, ceiling),
    }
}

fn past_ceiling(need: u64, over: u32, entry: &Entry, ceiling: u64) -> Option<EntryDoubt>
    ensures { result ≡ past_ceiling need over entry.now ceiling }
{
    let last = ceiling.max(entry.end);
    if last < need {
        Some(EntryDoubt::PastCeiling(over, need - last))
    } else {
        past_end(need, over, entry)
    }
}

fn past_end(need: u64, over: u32, entry: &Entry) -> Option<EntryDoubt>
    ensures { result ≡ past_end need over entry.now }
{
    if !entry.renewable && entry.end < need {
        Some(EntryDoubt::PastEnd(over))
    } else {
        None
    }
}

// Where a lookup is to tell the issue, which is past: the maximum TTL, where one is written.
fn untold_limit(subject: &Subject, need: u64, over: u32, terms: &Terms) -> Option<EntryDoubt>
    ensures { result ≡ untold_limit subject.now need over terms.now }
{
    if !is_written_max(subject, terms) {
        return None;
    }
    match life_of(terms) {
        None => None,
        Some(life) => past_life(subject.at.get(), need, over, life),
    }
}

fn past_life(now: u64, need: u64, over: u32, life: u64) -> Option<EntryDoubt>
    requires { now + life < 2 ^ 64 }
    ensures { result ≡ past_life now need over life }
{
    if now + life < need {
        Some(EntryDoubt::PastLife(over, need - (now + life)))
    } else {
        None
    }
}

// Whether an explicit maximum is written, or one that is not the system's.
fn is_written_max(subject: &Subject, terms: &Terms) -> bool
    ensures { result ≡ is_written_max subject.now terms.now }
{
    terms.explicit_max > 0 || terms.max_ttl != subject.served.system_max().unwrap_or(SYSTEM_MAX)
}

// How long after its issue an entry lives at most.
fn life_of(terms: &Terms) -> Option<u64>
    ensures value { result ≡ life_of terms.now }
    ensures within { IfSome result (λ life. life ≤ END_MAX) }
{
    match terms.ceiling() {
        None => None,
        Some(ceiling) => Some(ceiling.saturating_sub(terms.issued.get())),
    }
}
