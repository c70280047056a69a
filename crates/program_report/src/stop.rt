ghost use Rattle.std.specs.Prelude.{◌≡◌};
ghost use Rattle.program_report.specs.Exits.{exit_of, stop_of_input, stop_of_inventory, stop_of_sink, stop_of_wakes};
ghost use Rattle.program_report.specs.FaultLine.{fault_line};
ghost use Rattle.program_report.specs.Told.{Reports};
ghost use Rattle.program_report.specs.declared.stop.Stop.TheVariants.{Memory};

use crate::exit::Exit;
use crate::fault_line::put_line;
use base_device::{InputFault, Sink, SinkFault, Watched};
use base_moment::Name;
use plan_rule::WakeFault;
use std::alloc::{AllocError, AllocFailed};
use vault_inventory::InvFault;

/// Why a run stopped before its end.
#[derive(Debug, Drop)]
pub enum Stop {
    /// The text is no inventory.
    Inventory(InvFault),
    /// The moments of the command line.
    Moments(WakeFault),
    /// The word of the command line at this position, from 1 on, that tells a fault for the broker.
    FaultWord(u64),
    /// The plan, or the rehearsal, would have too many wake-ups.
    TooLong,
    /// An input failed or passed its limit.
    Read,
    /// The writer for output failed.
    Write,
    /// The broker gave no answer that can be read about the entry of this name.
    Broker(Name),
    /// The event line of this number, from 1 on, is none.
    Line(u64),
    /// Memory was refused.
    Memory,
}

impl From<AllocError> for Stop {
    ghost from_gives = { λ _ s. s ≡ Memory };

    fn from(_e: AllocError) -> Stop {
        Stop::Memory
    }
}

impl<T: Drop> From<AllocFailed<T>> for Stop {
    ghost from_gives = { λ _ s. s ≡ Memory };

    fn from(_e: AllocFailed<T>) -> Stop {
        Stop::Memory
    }
}

impl From<InvFault> for Stop {
    ghost from_gives = { λ fault s. s ≡ stop_of_inventory fault };

    fn from(fault: InvFault) -> Stop {
        match fault {
            InvFault::OutOfMemory => Stop::Memory,
            _ => Stop::Inventory(fault),
        }
    }
}

impl From<WakeFault> for Stop {
    ghost from_gives = { λ fault s. s ≡ stop_of_wakes fault };

    fn from(fault: WakeFault) -> Stop {
        match fault {
            WakeFault::OutOfMemory => Stop::Memory,
            _ => Stop::Moments(fault),
        }
    }
}

impl From<InputFault> for Stop {
    ghost from_gives = { λ fault s. s ≡ stop_of_input fault };

    fn from(fault: InputFault) -> Stop {
        match fault {
            InputFault::ReadFailed | InputFault::TooLong => Stop::Read,
            InputFault::OutOfMemory => Stop::Memory,
        }
    }
}

impl From<SinkFault> for Stop {
    ghost from_gives = { λ fault s. s ≡ stop_of_sink fault };

    fn from(fault: SinkFault) -> Stop {
        match fault {
            SinkFault::Failed => Stop::Write,
            SinkFault::OutOfMemory => Stop::Memory,
        }
    }
}

impl Stop {
    /// The exit of a run that stopped so.
    pub fn exit(&self) -> Exit
        ensures { result ≡ exit_of self.now }
    {
        match self {
            Stop::Inventory(_) => Exit::Inventory,
            Stop::Moments(_) | Stop::FaultWord(_) => Exit::CommandLine,
            Stop::TooLong => Exit::TooLong,
            Stop::Read | Stop::Write | Stop::Broker(_) | Stop::Line(_) => Exit::Device,
            Stop::Memory => Exit::Memory,
        }
    }

    /// Writes the fault line with the program's name in front, flushes, and gives the exit, which a write that fails leaves
    /// as it is. It takes no memory: a run that was refused some tells of it all the same.
    pub fn report<F: Sink>(&self, program: &str, errors: &mut F) -> Exit
        ensures exit { result ≡ exit_of self.now }
        ensures told { Reports (fault_line program.now self.now) (⟦<F as Watched>⟧.change errors.old errors.new) }
    {
        let _ = put_line(errors, program, self);
        let _ = errors.flush();
        self.exit()
    }
}
