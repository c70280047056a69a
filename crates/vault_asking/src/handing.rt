//! An answer is handed in to the machine.
ghost use Rattle.std.specs.Prelude.{◌≡◌};
ghost use Rattle.vault_asking.specs.Handing.{out_of};
ghost use Rattle.vault_asking.specs.Told.{event_as};

use crate::told::Said;
use watch_machine::{Notes, Operation, Out, WatchEvent};

/// An answer that was handed in.
#[derive(Clone, Copy, Debug)]
pub struct HandedIn<'a> {
    /// The index of its entry.
    pub entry: u32,
    /// What was asked.
    pub operation: Operation,
    /// What it says.
    pub said: Said,
    /// What is noted of it.
    pub notes: &'a Notes,
}

/// The request of these that is out of an entry, if one is.
pub fn out_of(out: &[Out], entry: u32) -> Option<Out>
    ensures { result ≡ out_of out.now entry }
{
    out.iter().find(|request| request.entry == entry).copied()
}

/// The event of an answer that says this.
pub fn event_of(operation: Operation, entry: u32, said: Said) -> WatchEvent
    ensures { result ≡ event_as operation entry said.reply said.terms }
{
    let Said { reply, terms, .. } = said;
    match operation {
        Operation::Look => WatchEvent::Looked {
            entry,
            reply,
            terms,
        },
        Operation::Renew => WatchEvent::Renewed { entry, reply },
    }
}
