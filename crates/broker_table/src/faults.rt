ghost use Rattle.std.specs.Prelude.{◌≡◌, ◌++◌, ◌∷◌, [], None, Err, IfSome, IsOkUnless, OnErr, OnOk};
ghost use Rattle.broker_rule.specs.Faults.{fault_at, fault_refusal, next_number, without_fault};

use broker_rule::{Fault, NumberedFault, SetFault};
use std::alloc::Global;
use std::collections::BTreeMap;
use std::marker::Model;

/// The faults of the renewal requests to come, and the count of those that came.
///
/// To contracts it is the record of both. A fault is looked up by its number, so a fault more costs the logarithm of how
/// many there are. Once its request is counted nothing asks for it, so it stays where it is.
#[derive(Debug, Drop)]
pub struct Faults {
    /// All that were given, in their order.
    given: Vec<NumberedFault>,
    by_number: BTreeMap<u64, Fault>,
    count: u64,
}

impl Model for Faults {
    ghost use Rattle.std.specs.Prelude.{◌≡◌, ℕ};
    ghost use Rattle.std.specs.BTreeMap.{get};
    ghost use Rattle.std.specs.Ordering.{nat_cmp};
    ghost use Rattle.broker_rule.specs.Faults.{Faults, fault_at, pending};

    ghost Value = { Faults };

    ghost view = { λ f. record { faults = pending f.given.items f.count; count = f.count } };

    ghost invariant = { λ f. (n : ℕ) → get nat_cmp f.by_number n ≡ fault_at f.given.items n };
}

impl Faults {
    /// No faults, and no request counted. It takes no memory.
    pub(crate) fn new(alloc: Global) -> Faults
        ensures { result ≡ record { faults = []; count = 0 } }
    {
        Faults {
            given: Vec::new(alloc),
            by_number: BTreeMap::new(alloc),
            count: 0,
        }
    }

    /// Gives the request with that number a fault. The refusals are those of `Table::set_fault`.
    pub(crate) fn set(&mut self, number: u64, fault: Fault) -> Result<(), SetFault>
        ensures taken { OnOk result (self.new ≡ record self.old { faults = self.old.faults ++ record { number = number; fault = fault } ∷ [] }) }
        ensures refused { IfSome (fault_refusal self.old.faults self.old.count number) (λ fault. result ≡ Err fault) }
        ensures memory { fault_refusal self.old.faults self.old.count number ≡ None → IsOkUnless result SetFault.OutOfMemory }
        ensures unchanged { OnErr result (self.new ≡ self.old) }
    {
        if let Some(fault) = self.refusal(number) {
            return Err(fault);
        }
        self.given.reserve(1)?;
        self.by_number.insert(number, fault)?;
        self.given.push(NumberedFault { number, fault }).unwrap();
        Ok(())
    }

    /// Why a fault is not taken: the first refusal that applies, `None` where none does.
    #[tactic(auto, unfolding(broker_rule::specs::Faults::fault_refusal))]
    fn refusal(&self, number: u64) -> Option<SetFault>
        ensures { result ≡ fault_refusal self.now.faults self.now.count number }
    {
        if number <= self.count {
            return Some(SetFault::BadNumber);
        }
        if self.at(number).is_some() {
            return Some(SetFault::Twice);
        }
        None
    }

    /// The fault of the request with that number.
    fn at(&self, number: u64) -> Option<Fault>
        ensures { result ≡ fault_at self.now.faults number }
    {
        // The map has still what was used; at the greatest number, where the count stays, it would be found again.
        if number > self.count {
            self.by_number.get(&number).copied()
        } else {
            None
        }
    }

    /// The fault of the request that comes next.
    pub(crate) fn next(&self) -> Option<Fault>
        ensures { result ≡ fault_at self.now.faults (next_number self.now.count) }
    {
        self.at(next_number(self.count))
    }

    /// Counts the request that comes next, and so uses its fault.
    pub(crate) fn count_next(&mut self)
        ensures { self.new ≡ record { faults = without_fault self.old.faults (next_number self.old.count); count = next_number self.old.count } }
    {
        self.count = next_number(self.count);
    }
}

/// The number of the request that comes after so many. It stays at the greatest `u64`.
#[tactic(auto, unfolding(broker_rule::specs::Faults::next_number))]
fn next_number(count: u64) -> u64
    ensures { result ≡ next_number count }
{
    count.saturating_add(1)
}
