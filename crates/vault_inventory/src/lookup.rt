ghost use Rattle.std.specs.Prelude.{◌≡◌, ◌+◌, ◌<◌, ◌≤◌, IfSome, length, slice_set};
ghost use Rattle.plan_forest.specs.Forest.{entry_at};
ghost use Rattle.plan_forest.specs.Push.{IsForest};
ghost use Rattle.plan_forest.specs.declared.forest.TheConstants.{END_MAX};
ghost use Rattle.vault_inventory.specs.declared.limits.TheConstants.{SPAN_MAX};
ghost use Rattle.vault_inventory.specs.Lookup.{told_entry, told_terms};

use crate::terms::Terms;
use base_moment::{Moment, Span};
use plan_forest::Forest;
use thiserror::Error;
use vault_json::Lookup;

/// Why what a broker says is not applied to an entry.
#[derive(Clone, Copy, Debug, PartialEq, Eq, Error)]
pub enum LookupFault {
    /// It is said of a lease, and the entry is a token, or the other way.
    #[error("it is said of the other kind of entry")]
    OtherKind,
    /// It is said of a lease with another id.
    #[error("it is said of another lease")]
    OtherEntry,
    /// It is said of an orphan, and the inventory names a parent.
    #[error("the token is an orphan, and the inventory names its parent")]
    OtherTree,
    /// A renewal would not lead past the margin: the period, or the increment where there is none, is not more than the
    /// margin.
    #[error("the step is not past the margin")]
    NoStep,
}

/// The terms of an entry as a lookup makes them.
pub fn told_terms(lookup: &Lookup, terms: Terms) -> Terms
    ensures { result ≡ told_terms lookup.now terms }
{
    match lookup {
        Lookup::Token {
            created,
            explicit_max,
            period,
            ..
        } => Terms {
            issued: *created,
            increment: terms.increment,
            period: *period,
            max_ttl: terms.max_ttl,
            explicit_max: *explicit_max,
            reissued: terms.reissued,
        },
        Lookup::Lease { issued, .. } => Terms {
            issued: *issued,
            ..terms
        },
    }
}

/// Makes of an entry what a lookup at `now` says, on the terms as they then are.
pub(crate) fn tell(forest: &mut Forest, index: u32, lookup: &Lookup, terms: &Terms, now: Moment)
    requires within { index < length forest.old.entries }
    requires step { forest.old.margin + 1 ≤ (told_entry now lookup.now terms.now (entry_at forest.old.entries index)).step }
    ensures told { forest.new ≡ record forest.old { entries = slice_set forest.old.entries index (told_entry now lookup.now terms.now (entry_at forest.old.entries index)) } }
    ensures span { (told_entry now lookup.now terms.now (entry_at forest.old.entries index)).step ≤ SPAN_MAX }
    ensures sound { IsForest forest.new }
{
    match lookup {
        Lookup::Token { ttl, renewable, .. } => {
            set(
                forest,
                index,
                now.plus(*ttl),
                *renewable,
                terms.step(),
                terms.ceiling(),
            )
        }
        Lookup::Lease { ttl, renewable, .. } => {
            let step = forest.get(index).step;
            set(
                forest,
                index,
                now.plus(*ttl),
                *renewable,
                step,
                terms.ceiling(),
            )
        }
    }
}

/// Sets the four fields of an entry that a lookup tells.
fn set(forest: &mut Forest, index: u32, end: u64, renewable: bool, step: Span, ceiling: Option<u64>)
    requires within { index < length forest.old.entries }
    requires end { end ≤ END_MAX }
    requires step { forest.old.margin + 1 ≤ step }
    requires ceiling { IfSome ceiling (λ c. c ≤ END_MAX) }
    ensures set { forest.new ≡ record forest.old { entries = slice_set forest.old.entries index (record (entry_at forest.old.entries index) { end = end; renewable = renewable; step = step; ceiling = ceiling }) } }
    ensures span { step ≤ SPAN_MAX }
    ensures sound { IsForest forest.new }
{
    forest.set_end(index, end);
    forest.set_renewable(index, renewable);
    forest.set_terms(index, step, ceiling);
    // The forest is one still, and a look at it says so.
    let _entries = forest.len();
}

/// Sets the need of an entry.
pub(crate) fn set_need(forest: &mut Forest, index: u32, need: Moment)
    requires { index < length forest.old.entries }
    ensures set { forest.new ≡ record forest.old { entries = slice_set forest.old.entries index (record (entry_at forest.old.entries index) { need = need }) } }
    ensures sound { IsForest forest.new }
{
    forest.set_need(index, need);
    // The forest is one still, and a look at it says so.
    let _entries = forest.len();
}

/// Writes the terms of an entry.
pub(crate) fn write_terms(terms: &mut Vec<Terms>, index: u32, told: Terms)
    requires { index < length terms.old.items }
    ensures { terms.new.items ≡ slice_set terms.old.items index told }
{
    terms[index as usize] = told;
}
