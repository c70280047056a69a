ghost use Rattle.std.specs.Prelude.{◌≡◌};
ghost use Rattle.agent_words.specs.Faults.{start_of_inventory, start_of_settling};
ghost use Rattle.agent_words.specs.declared.fault.StartFault.TheVariants.{OutOfMemory};

use state_file::SettleFault;
use std::alloc::{AllocError, AllocFailed};
use vault_inventory::InvFault;

/// Why an inventory is not served: the first that applies, in this order. An index is that of the entry.
#[derive(Clone, Copy, Debug, PartialEq, Eq)]
pub enum StartFault {
    /// The text is no inventory.
    Inventory(InvFault),
    /// The margin is not written.
    NoMargin,
    /// The margin is under four time-outs, or eight where the agent stands behind another.
    SmallMargin,
    /// The entry has neither a credential of its own nor a file with one.
    NoCredential(usize),
    /// The file with the entry's credential cannot be read.
    NoFile(usize),
    /// That file holds no credential: 1 to 256 printable ASCII characters.
    NoSecret(usize),
    /// What the files hold does not go together: two tokens, or two leases, with the same.
    Together(SettleFault),
    /// Memory was refused.
    OutOfMemory,
}

impl From<AllocError> for StartFault {
    ghost from_gives = { λ _ e. e ≡ OutOfMemory };

    fn from(_e: AllocError) -> StartFault {
        StartFault::OutOfMemory
    }
}

impl<T: Drop> From<AllocFailed<T>> for StartFault {
    ghost from_gives = { λ _ e. e ≡ OutOfMemory };

    fn from(_e: AllocFailed<T>) -> StartFault {
        StartFault::OutOfMemory
    }
}

impl From<InvFault> for StartFault {
    ghost from_gives = { λ fault e. e ≡ start_of_inventory fault };

    fn from(fault: InvFault) -> StartFault {
        match fault {
            InvFault::OutOfMemory => StartFault::OutOfMemory,
            _ => StartFault::Inventory(fault),
        }
    }
}

impl From<SettleFault> for StartFault {
    ghost from_gives = { λ fault e. e ≡ start_of_settling fault };

    fn from(fault: SettleFault) -> StartFault {
        match fault {
            SettleFault::OutOfMemory => StartFault::OutOfMemory,
            _ => StartFault::Together(fault),
        }
    }
}
