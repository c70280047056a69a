ghost use Rattle.std.specs.Prelude.{◌≡◌, ◌∷◌, ◌++◌, decimal};
ghost use Rattle.program_report.specs.FaultLine.{fault_line, inventory_words, moments_words, place_word, stop_words, tree_word};
ghost use Rattle.program_report.specs.Sent.{Puts};

use crate::putting::{put, put_both};
use crate::stop::Stop;
use base_device::{Sink, SinkFault, Watched};
use itoa::Buffer;
use plan_forest::TreeFault;
use plan_rule::WakeFault;
use vault_inventory::InvFault;

/// Writes the fault line of a program that stopped, with its line feed, piece by piece, so that it wants no memory.
#[tactic(auto, using(crate::proofs::Pieces::piece_cut, crate::proofs::Pieces::piece_more), unfolding(crate::specs::FaultLine::fault_line))]
pub(crate) fn put_line<E: Sink>(errors: &mut E, program: &str, stop: &Stop) -> Result<(), SinkFault>
    ensures { Puts result (fault_line program.now stop.now) (⟦<E as Watched>⟧.change errors.old errors.new) }
{
    put(errors, program.as_bytes())?;
    put(errors, b": ")?;
    put_stop(errors, stop)?;
    put(errors, b"\n")
}

/// Writes what is said of a stop.
#[tactic(auto, using(crate::proofs::Pieces::piece_named), unfolding(crate::specs::FaultLine::stop_words))]
fn put_stop<E: Sink>(errors: &mut E, stop: &Stop) -> Result<(), SinkFault>
    ensures { Puts result (stop_words stop.now) (⟦<E as Watched>⟧.change errors.old errors.new) }
{
    match stop {
        Stop::Inventory(fault) => put_inventory(errors, *fault),
        Stop::Moments(fault) => put_moments(errors, *fault),
        Stop::FaultWord(position) => put_number(errors, b"fault word ", *position),
        Stop::TooLong => put(errors, b"too long"),
        Stop::Read => put(errors, b"read"),
        Stop::Write => put(errors, b"write"),
        Stop::Broker(name) => put_both(errors, b"broker ", name.list()),
        Stop::Line(number) => put_number(errors, b"line ", *number),
        Stop::Memory => put(errors, b"memory"),
    }
}

/// Writes the fault of a text that is no inventory: the entry by its index, `-` for the top level.
#[tactic(auto, using(crate::proofs::Pieces::piece_named), unfolding(crate::specs::FaultLine::inventory_words))]
fn put_inventory<E: Sink>(errors: &mut E, fault: InvFault) -> Result<(), SinkFault>
    ensures { Puts result (inventory_words fault) (⟦<E as Watched>⟧.change errors.old errors.new) }
{
    match fault {
        InvFault::NotToml => put(errors, b"inventory: not-toml"),
        InvFault::MissingKey(entry, key) => {
            put_word(errors, b"inventory: missing-key ", Some(entry), key.text())
        }
        InvFault::UnknownKey(place) => put_where(errors, b"inventory: unknown-key ", place),
        InvFault::BadValue(place, key) => {
            put_word(errors, b"inventory: bad-value ", place, key.text())
        }
        InvFault::Tree(entry, fault) => {
            let fault = tree_word(fault);
            put_word(errors, b"inventory: tree ", Some(entry), fault)
        }
        InvFault::OutOfMemory => put(errors, b"memory"),
    }
}

/// Writes the first of the moments at fault, counted from 1.
#[tactic(auto, using(crate::proofs::Pieces::piece_named), unfolding(crate::specs::FaultLine::moments_words))]
fn put_moments<E: Sink>(errors: &mut E, fault: WakeFault) -> Result<(), SinkFault>
    ensures { Puts result (moments_words fault) (⟦<E as Watched>⟧.change errors.old errors.new) }
{
    match fault {
        WakeFault::BeforeStart(n) => put_number(errors, b"moments: before-start ", n),
        WakeFault::Unordered(n) => put_number(errors, b"moments: unordered ", n),
        WakeFault::BadIndex(n) => put_number(errors, b"moments: bad-index ", n),
        WakeFault::OutOfMemory => put(errors, b"memory"),
    }
}

/// The word for a fault of a tree of entries, as it stands in fault lines.
#[tactic(auto, unfolding(crate::specs::FaultLine::tree_word))]
pub fn tree_word(fault: TreeFault) -> &'static str
    ensures { result.now ≡ tree_word fault }
{
    match fault {
        TreeFault::BadName => "bad-name",
        TreeFault::NameTwice => "name-twice",
        TreeFault::NoParent => "no-parent",
        TreeFault::ParentIsLease => "parent-is-lease",
        TreeFault::LeaseWithoutToken => "lease-without-token",
        TreeFault::StepTooSmall => "step-too-small",
        TreeFault::OutOfRange => "out-of-range",
        TreeFault::TooDeep => "too-deep",
        TreeFault::Full => "full",
        TreeFault::OutOfMemory => "out-of-memory",
    }
}

/// Writes words and a number.
fn put_number<E: Sink>(errors: &mut E, words: &[u8], number: u64) -> Result<(), SinkFault>
    ensures { Puts result (words.now ++ decimal number) (⟦<E as Watched>⟧.change errors.old errors.new) }
{
    let mut digits = Buffer::new();
    put_both(errors, words, digits.format(number).as_bytes())
}

/// Writes words, an entry's index, a blank and a word.
#[tactic(auto, using(crate::proofs::Pieces::piece_cut, crate::proofs::Pieces::piece_more))]
fn put_word<E: Sink>(
    errors: &mut E,
    words: &[u8],
    place: Option<u32>,
    word: &str,
) -> Result<(), SinkFault>
    ensures { Puts result (words.now ++ (place_word place ++ (32 ∷ word.now))) (⟦<E as Watched>⟧.change errors.old errors.new) }
{
    put(errors, words)?;
    put_place(errors, place)?;
    put_both(errors, b" ", word.as_bytes())
}

/// Writes words and an entry's index.
#[tactic(auto, using(crate::proofs::Pieces::piece_cut, crate::proofs::Pieces::piece_more))]
fn put_where<E: Sink>(errors: &mut E, words: &[u8], place: Option<u32>) -> Result<(), SinkFault>
    ensures { Puts result (words.now ++ place_word place) (⟦<E as Watched>⟧.change errors.old errors.new) }
{
    put(errors, words)?;
    put_place(errors, place)
}

/// Writes an entry's index, `-` for the top level.
#[tactic(auto, unfolding(crate::specs::FaultLine::place_word))]
fn put_place<E: Sink>(errors: &mut E, place: Option<u32>) -> Result<(), SinkFault>
    ensures { Puts result (place_word place) (⟦<E as Watched>⟧.change errors.old errors.new) }
{
    match place {
        None => put(errors, b"-"),
        Some(entry) => {
            let mut digits = Buffer::new();
            put(errors, digits.format(entry).as_bytes())
        }
    }
}
