//! FAULT words: what is to go wrong at which renewal request.
ghost use Rattle.std.specs.Prelude.{◌≡◌, []};
ghost use Rattle.tick_runs.specs.FaultWords.{SetsFaults, fault_of_text, fault_word, stop_at};

use base_moment::Text;
use base_words::{number_up_to, two_pieces};
use broker_table::{Fault, NumberedFault, SetFault, Table};
use program_report::Stop;
use vault_inventory::SPAN_MAX;

/// The greatest number of a renewal request that a FAULT word names.
pub const MOST_NUMBER: u64 = 1_000_000;

/// Gives a table the faults that these words write. `FaultWord`: the place of the first, from 1 on, that writes none or one
/// whose number an earlier one has.
pub(crate) fn set_faults(table: &mut Table, words: &[Text]) -> Result<(), Stop>
    requires fresh { table.old.faults ≡ [] }
    requires uncounted { table.old.count ≡ 0 }
    ensures { SetsFaults words.now table.old result table.new }
{
    let mut place: u64 = 0;
    for word in words {
        place += 1;
        let Some(fault) = fault_of(word.list()) else {
            return Err(Stop::FaultWord(place));
        };
        match table.set_fault(fault.number, fault.fault) {
            Ok(()) => (),
            Err(why) => return Err(stop_at(why, place)),
        }
    }
    Ok(())
}

/// Why the words are not taken, where the table does not take the fault of the one at this place.
fn stop_at(why: SetFault, place: u64) -> Stop
    ensures { result ≡ stop_at why place }
{
    match why {
        SetFault::BadNumber | SetFault::Twice => Stop::FaultWord(place),
        SetFault::OutOfMemory => Stop::Memory,
    }
}

/// The fault that a word writes; `None` where it writes none.
#[tactic(auto, unfolding(crate::specs::FaultWords::fault_word))]
fn fault_of(word: &[u8]) -> Option<NumberedFault>
    ensures { result ≡ fault_word word.now }
{
    let (number, kind) = two_pieces(word, b'=')?;
    let number = number_up_to(number, MOST_NUMBER)?;
    let fault = kind_of(kind)?;
    Some(NumberedFault { number, fault })
}

/// What goes wrong: `short:SECONDS`, `drop` or `deny`.
#[tactic(auto, unfolding(crate::specs::FaultWords::fault_of_text))]
fn kind_of(text: &[u8]) -> Option<Fault>
    ensures { result ≡ fault_of_text text.now }
{
    if text == b"drop".as_slice() {
        return Some(Fault::Drop);
    }
    if text == b"deny".as_slice() {
        return Some(Fault::Deny);
    }
    let (kind, seconds) = two_pieces(text, b':')?;
    if kind != b"short".as_slice() {
        return None;
    }
    let seconds = number_up_to(seconds, SPAN_MAX as u64)?;
    Some(Fault::Short(seconds as u32))
}
