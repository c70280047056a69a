//! A case that is played again and again, where each time another call fails, and how its outcomes then differ.
use crate::play::outcomes_of;
use base_disk::Failing;
use base_log::SinkAnswer;
use base_words::push_number;
use play_cases::{Case, CaseFault, Setting, answer, number};
use std::alloc::{AllocError, Global};

/// What goes wrong beside what the case says.
#[derive(Clone, Copy)]
pub enum Disturbance {
    Nothing,
    /// A call of the disk with the state.
    State(Failing),
    /// A call of the disk with the ends.
    Ends(Failing),
    /// The log's reader gives this answer to the call with that number, from 0.
    Reader(u64, SinkAnswer),
    /// The reading of the clocks with that number fails.
    Clock(u64),
    /// The call with that number of the first guest's connection.
    Guest(u64),
}

impl Disturbance {
    /// Makes it part of what the play begins with.
    pub fn disturb(self, setting: &mut Setting) -> Result<(), AllocError> {
        match self {
            Disturbance::Reader(call, answer) => setting.answer_at(call, answer),
            Disturbance::Clock(number) => setting.fail_reading(number),
            unlisted => {
                unlisted.note(setting);
                Ok(())
            }
        }
    }

    // One that no list has.
    fn note(self, setting: &mut Setting) {
        match self {
            Disturbance::State(failing) => setting.state.failing = Some(failing),
            Disturbance::Ends(failing) => setting.ends.failing = Some(failing),
            Disturbance::Guest(call) => setting.guest_fails = call,
            Disturbance::Nothing | Disturbance::Reader(_, _) | Disturbance::Clock(_) => {}
        }
    }
}

/// What a sweep says to the call with that number.
fn disturbance_at(words: &[&str], call: u64, unread: CaseFault) -> Result<Disturbance, CaseFault> {
    match words {
        ["state", "once"] => Ok(Disturbance::State(Failing::Once(call))),
        ["state", "from"] => Ok(Disturbance::State(Failing::From(call))),
        ["ends", "once"] => Ok(Disturbance::Ends(Failing::Once(call))),
        ["ends", "from"] => Ok(Disturbance::Ends(Failing::From(call))),
        ["clock"] => Ok(Disturbance::Clock(call)),
        ["guest"] => Ok(Disturbance::Guest(call)),
        ["reader", words @ ..] => Ok(Disturbance::Reader(call, answer(words, unread)?)),
        _ => Err(unread),
    }
}

/// Plays the case once for each of so many calls, and says how it then differs from this, which is written where nothing fails.
pub fn swept(
    alloc: Global,
    case: &Case<'_>,
    whole: &[u8],
    words: &[&str],
    unread: CaseFault,
) -> Result<Vec<u8>, CaseFault> {
    let [count, words @ ..] = words else {
        return Err(unread);
    };
    let count = number(count, unread)?;
    let mut stretches = Stretches::new(alloc);
    for call in 0..count {
        let disturbance = disturbance_at(words, call, unread)?;
        let difference = differs(alloc, case, whole, disturbance)?;
        stretches.take(call, difference)?;
    }
    stretches.end(count)?;
    Ok(stretches.told)
}

/// How the case differs from this where that goes wrong.
fn differs(
    alloc: Global,
    case: &Case<'_>,
    whole: &[u8],
    disturbance: Disturbance,
) -> Result<Vec<u8>, CaseFault> {
    match outcomes_of(alloc, &case.steps, disturbance) {
        Ok(outcomes) => {
            let other = case.written(alloc, &outcomes)?;
            Ok(difference(alloc, whole, &other)?)
        }
        Err(CaseFault::Step(_)) => Ok(Vec::from_slice(alloc, b"the start is refused\n")?),
        Err(fault) => Err(fault),
    }
}

/// Calls one after the other of which the same comes.
#[derive(Drop)]
struct Stretches {
    alloc: Global,
    told: Vec<u8>,
    first: u64,
    /// What comes of those since the first.
    last: Option<Vec<u8>>,
}

impl Stretches {
    fn new(alloc: Global) -> Stretches {
        Stretches {
            alloc,
            told: Vec::new(alloc),
            first: 0,
            last: None,
        }
    }

    fn take(&mut self, call: u64, difference: Vec<u8>) -> Result<(), AllocError> {
        let is_same = match &self.last {
            None => false,
            Some(last) => *last == difference,
        };
        if !is_same {
            self.end(call)?;
            self.first = call;
            self.last = Some(difference);
        }
        Ok(())
    }

    // Tells of the stretch that ends before this call.
    fn end(&mut self, call: u64) -> Result<(), AllocError> {
        let Some(last) = &self.last else {
            return Ok(());
        };
        let (first, last_call) = (self.first, call.saturating_sub(1));
        push_number(self.alloc, first, &mut self.told)?;
        self.told.extend_from_slice(b" to ")?;
        push_number(self.alloc, last_call, &mut self.told)?;
        if last.is_empty() {
            self.told.extend_from_slice(b": the same")?;
        }
        self.told.push(b'\n')?;
        self.told.extend_from_slice(last)
    }
}

/// The lines in which two texts differ, between those that both begin with and those that both end with: those of the first after `-`, and
/// then those of the second after `+`.
fn difference(alloc: Global, one: &[u8], other: &[u8]) -> Result<Vec<u8>, AllocError> {
    let front = same_front(one, other);
    let one = without_first(one, front);
    let other = without_first(other, front);
    let back = same_back(one, other);
    let gone = without_last(one, back);
    let new = without_last(other, back);
    let mut told = Vec::new(alloc);
    push_marked(b'-', gone, &mut told)?;
    push_marked(b'+', new, &mut told)?;
    Ok(told)
}

/// How many bytes the lines have that are the same at the front of both.
fn same_front(one: &[u8], other: &[u8]) -> usize {
    let mut front = 0;
    for (at, byte) in one.iter().enumerate() {
        if other.get(at) != Some(byte) {
            return front;
        }
        if *byte == b'\n' {
            front = at.saturating_add(1);
        }
    }
    front
}

/// The same at their back.
fn same_back(one: &[u8], other: &[u8]) -> usize {
    let mut back = 0;
    for count in 0..one.len().min(other.len()).saturating_add(1) {
        let byte = byte_before(one, count);
        if byte != byte_before(other, count) {
            return back;
        }
        if byte == b'\n' {
            back = count;
        }
    }
    back
}

/// The byte before the last so many; the end of a line where there is none.
fn byte_before(text: &[u8], count: usize) -> u8 {
    match without_last(text, count).last() {
        None => b'\n',
        Some(byte) => *byte,
    }
}

/// A text without its first bytes.
fn without_first(text: &[u8], count: usize) -> &[u8] {
    text.get(count..).unwrap_or(&[])
}

/// A text without its last bytes.
fn without_last(text: &[u8], count: usize) -> &[u8] {
    text.get(..text.len().saturating_sub(count)).unwrap_or(&[])
}

/// These lines, each after that mark.
fn push_marked(mark: u8, lines: &[u8], out: &mut Vec<u8>) -> Result<(), AllocError> {
    let mut is_front = true;
    for byte in lines {
        if is_front {
            out.push(mark)?;
        }
        out.push(*byte)?;
        is_front = *byte == b'\n';
    }
    Ok(())
}
