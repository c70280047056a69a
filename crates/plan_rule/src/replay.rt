ghost use Rattle.std.specs.Prelude.{◌≡◌, ℕ, ◌+◌, ◌<◌, ◌↔◌, None, false, length, IfOk, IfSome, IsOkUnless, IsTrue, vec_len};
ghost use Rattle.plan_forest.specs.Forest.{end_of, entry_at};
ghost use Rattle.plan_forest.specs.Push.{IsForest};
ghost use Rattle.plan_rule.specs.Ends.{ends_after, ends_after_wake_up, ends_listed};
ghost use Rattle.plan_rule.specs.Keeps.{Keeps};
ghost use Rattle.plan_rule.specs.Plans.{asks_past, wake_fault};
ghost use Rattle.plan_rule.specs.code.Replay.{KeptBetween, Lasts, end_renewed_by, shown_ends};

use crate::wake::{Wake, WakeFault, wake_fault};
use base_moment::{LAST, Moment};
use plan_forest::{Ends, Forest, renewal};
use std::alloc::{AllocError, Global};

/// The ends after these wake-ups, in seconds since 1970-01-01T00:00:00Z, one for each entry in order. All entries that
/// one wake-up asks are judged by the ends before it.
///
/// Refused is the first wake-up that is before `start`, less than the one before it, or asks past the entries; the other
/// answer is lack of memory. A wake-up costs one pass over the entries.
///
/// Source: Vault, "Lease, renew, and revoke"; Vault, "Tokens".
pub fn ends_after(
    alloc: Global,
    forest: &Forest,
    start: Moment,
    wakes: &[Wake],
) -> Result<Ends, WakeFault>
    ensures ends { IfOk result (λ ends. (wake_fault forest.now.entries start wakes.now ≡ None)
        × (ends ≡ ends_listed forest.now.entries (ends_after forest.now.entries forest.now.margin (end_of forest.now.entries) wakes.now))) }
    ensures refused { IfSome (wake_fault forest.now.entries start wakes.now) (λ fault. result ≡ Err fault) }
    ensures memory { wake_fault forest.now.entries start wakes.now ≡ None → IsOkUnless result WakeFault.OutOfMemory }
{
    if let Some(fault) = wake_fault(forest, start, wakes) {
        return Err(fault);
    }
    let mut ends = present_ends(alloc, forest)?;
    let mut lasts = present_ends(alloc, forest)?;
    for wake in wakes {
        carry_lasts(forest, &ends, &mut lasts);
        renew(forest, wake, &lasts, &mut ends);
    }
    Ok(Ends::from_vec(ends))
}

/// Whether every entry is alive at every moment from `start` on and before its need, under these wake-ups: it and every
/// entry over it have their ends still to come.
///
/// Refused as [`ends_after`].
///
/// Source: Vault, "Tokens" (a token's end ends its children and leases).
pub fn keeps(
    alloc: Global,
    forest: &Forest,
    start: Moment,
    wakes: &[Wake],
) -> Result<bool, WakeFault>
    ensures kept { IfOk result (λ kept. (wake_fault forest.now.entries start wakes.now ≡ None)
        × (IsTrue kept ↔ Keeps forest.now.entries forest.now.margin start (end_of forest.now.entries) wakes.now)) }
    ensures refused { IfSome (wake_fault forest.now.entries start wakes.now) (λ fault. result ≡ Err fault) }
    ensures memory { wake_fault forest.now.entries start wakes.now ≡ None → IsOkUnless result WakeFault.OutOfMemory }
{
    if let Some(fault) = wake_fault(forest, start, wakes) {
        return Err(fault);
    }
    let mut ends = present_ends(alloc, forest)?;
    let mut lasts = present_ends(alloc, forest)?;
    let mut from = start.get();
    let mut kept = true;
    for wake in wakes {
        carry_lasts(forest, &ends, &mut lasts);
        kept &= lasts_between(forest, &lasts, from, wake.at.get());
        renew(forest, wake, &lasts, &mut ends);
        from = wake.at.get();
    }
    carry_lasts(forest, &ends, &mut lasts);
    kept &= lasts_between(forest, &lasts, from, LAST + 1);
    Ok(kept)
}

/// The present ends, in the order of the indices.
fn present_ends(alloc: Global, forest: &Forest) -> Result<Vec<u64>, AllocError>
    ensures { IfOk result (λ ends. (vec_len ends ≡ length forest.now.entries) × (shown_ends ends.items ≡ end_of forest.now.entries)) }
{
    let mut ends = Vec::new(alloc);
    for index in 0..forest.len() {
        ends.push(forest.get(index).end)?;
    }
    Ok(ends)
}

/// Sets each of `lasts` to the least end among those of the entry and of all that are over it.
fn carry_lasts(forest: &Forest, ends: &[u64], lasts: &mut [u64])
    requires ends { length ends.now ≡ length forest.now.entries }
    requires lasts { length lasts.old ≡ length forest.now.entries }
    ensures { Lasts forest.now.entries (shown_ends ends.now) lasts.new }
{
    for index in 0..forest.len() {
        let end = ends[index as usize];
        lasts[index as usize] = match forest.get(index).parent {
            None => end,
            Some(parent) => end.min(lasts[parent as usize]),
        };
    }
}

/// Sets the end of each entry that the wake-up asks and whose renewal is granted by what lasts before it.
fn renew(forest: &Forest, wake: &Wake, lasts: &[u64], ends: &mut [u64])
    requires asked { asks_past (length forest.now.entries) wake.now.asked ≡ false }
    requires ends { length ends.old ≡ length forest.now.entries }
    requires lasts { Lasts forest.now.entries (shown_ends ends.old) lasts.now }
    ensures { shown_ends ends.new ≡ ends_after_wake_up forest.now.entries forest.now.margin (shown_ends ends.old) wake.now }
{
    for index in wake.asked.list() {
        let i = *index as usize;
        ends[i] = renewed_end(forest, *index, wake.at, lasts[i], ends[i]);
    }
}

/// The end after a request at `at`, of an entry with the end `end` over which every end is `last` or later.
fn renewed_end(forest: &Forest, index: u32, at: Moment, last: u64, end: u64) -> u64
    requires { index < length forest.now.entries }
    ensures { result ≡ end_renewed_by (entry_at forest.now.entries index) forest.now.margin at last end }
{
    let entry = forest.get(index);
    if entry.renewable && at.plus(forest.margin()) <= last {
        renewal(entry, at.get())
    } else {
        end
    }
}

/// Whether each entry is alive at each moment from `from` on, before `to` and before its need.
fn lasts_between(forest: &Forest, lasts: &[u64], from: u64, to: u64) -> bool
    requires { length lasts.now ≡ length forest.now.entries }
    ensures between { (ends : ℕ → ℕ) → Lasts forest.now.entries ends lasts.now → IsTrue result ↔ KeptBetween forest.now.entries ends from to }
    ensures sound { IsForest forest.now }
{
    for index in 0..forest.len() {
        let until = forest.get(index).need.min(to);
        if from < until && lasts[index as usize] < until {
            return false;
        }
    }
    true
}
