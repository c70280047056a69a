//! What came of a play.
use crate::guests::guest_named;
use crate::play::Play;
use crate::running::Running;
use crate::starts::MemoryHouse;
use agent_ledger::Late;
use agent_standing::Agent;
use base_clock::ClockCall;
use base_words::push_number;
use play_cases::CaseFault;
use std::alloc::{AllocError, Global};
use std::mem;
use watch_machine::End;

/// What is asked for.
#[derive(Clone, Copy)]
enum Asked {
    Log,
    Waiting,
    Dropped,
    Requests,
    Pauses,
    Entries,
    Looked,
    Read,
}

// What a word asks for.
fn read_asked(word: &str, unread: CaseFault) -> Result<Asked, CaseFault> {
    match word {
        "log" => Ok(Asked::Log),
        "waiting" => Ok(Asked::Waiting),
        "dropped" => Ok(Asked::Dropped),
        "requests" => Ok(Asked::Requests),
        "pauses" => Ok(Asked::Pauses),
        "entries" => Ok(Asked::Entries),
        "looked" => Ok(Asked::Looked),
        "read" => Ok(Asked::Read),
        _ => Err(unread),
    }
}

impl<'a> Play<'a> {
    /// What these words ask for.
    pub fn outcome(&mut self, words: &[&str], unread: CaseFault) -> Result<Vec<u8>, CaseFault> {
        match words {
            [word] => {
                let asked = read_asked(word, unread)?;
                self.told_of(asked)
            }
            ["disk", path] => file_of(self.alloc, &self.house.others.others, path),
            ["sent", name] => {
                let guest = guest_named(self.guests, name, unread)?;
                Ok(guest.take_sent())
            }
            ["calls", name] => {
                let guest = guest_named(self.guests, name, unread)?;
                line_of(self.alloc, guest.calls())
            }
            _ => Err(unread),
        }
    }

    fn told_of(&mut self, asked: Asked) -> Result<Vec<u8>, CaseFault> {
        let alloc = self.alloc;
        let house = &self.house.others.others;
        match asked {
            Asked::Log => part_after(alloc, house.sink.written(), &mut self.told.log),
            Asked::Waiting => copy_of(alloc, house.desk.room().waiting()),
            Asked::Dropped => line_of(alloc, house.desk.room().dropped()),
            Asked::Requests => Ok(mem::replace(&mut self.told.requests, Vec::new(alloc))),
            Asked::Pauses => pauses_after(alloc, self.clock.calls(), &mut self.told.clock),
            Asked::Entries => entries_of(alloc, &self.running),
            Asked::Looked => line_of(alloc, counts_of(house).0),
            Asked::Read => line_of(alloc, counts_of(house).1),
        }
    }
}

// A number, in a line.
fn line_of(alloc: Global, number: u64) -> Result<Vec<u8>, CaseFault> {
    let mut line = Vec::new(alloc);
    push_number(alloc, number, &mut line)?;
    line.push(b'\n')?;
    Ok(line)
}

// These bytes.
fn copy_of(alloc: Global, bytes: &[u8]) -> Result<Vec<u8>, CaseFault> {
    Vec::from_slice(alloc, bytes).map_err(|_| CaseFault::Memory)
}

// The bytes after so many, which are told with that.
fn part_after(alloc: Global, bytes: &[u8], before: &mut usize) -> Result<Vec<u8>, CaseFault> {
    let part = bytes.get(*before..).unwrap_or(&[]);
    *before = bytes.len();
    copy_of(alloc, part)
}

// How long each wait after so many calls of the clock took, in milliseconds, in one line; they are told with that.
fn pauses_after(
    alloc: Global,
    calls: &[ClockCall],
    before: &mut usize,
) -> Result<Vec<u8>, CaseFault> {
    let mut line = Vec::new(alloc);
    for call in calls.get(*before..).unwrap_or(&[]) {
        if let ClockCall::Wait { millis } = call {
            if !line.is_empty() {
                line.push(b' ')?;
            }
            push_number(alloc, *millis, &mut line)?;
        }
    }
    line.push(b'\n')?;
    *before = calls.len();
    Ok(line)
}

// How often files of credentials were looked at so far, and how often read.
fn counts_of(house: &MemoryHouse<'_>) -> (u64, u64) {
    match &house.state {
        None | Some(Late::NotYet(_)) => (0, 0),
        Some(Late::Open(ledger)) => (ledger.inputs.looks, ledger.inputs.reads),
    }
}

// The bytes of a file of the state, or of the ends.
fn file_of(alloc: Global, house: &MemoryHouse<'_>, path: &str) -> Result<Vec<u8>, CaseFault> {
    if let Some(Late::Open(ledger)) = &house.state {
        if let Some(held) = ledger.state.disk().file(alloc, path)? {
            return Ok(held.bytes);
        }
    }
    if let Some(ends) = &house.ends {
        if let Some(held) = ends.disk.file(alloc, path)? {
            return Ok(held.bytes);
        }
    }
    copy_of(alloc, b"(no file)\n")
}

// Of each entry that is served, the second at which it is believed to end, and that at which it ends at the broker.
fn entries_of(alloc: Global, running: &Running) -> Result<Vec<u8>, CaseFault> {
    let mut lines = Vec::new(alloc);
    if let Some(agent) = running.agent() {
        for index in 0..agent.inventory().forest().len() {
            push_entry(alloc, running, agent, index, &mut lines)?;
        }
    }
    Ok(lines)
}

// The entry with that index: when it is believed to end, and when it ends at the broker.
fn push_entry(
    alloc: Global,
    running: &Running,
    agent: &Agent,
    index: u32,
    lines: &mut Vec<u8>,
) -> Result<(), AllocError> {
    let forest = agent.inventory().forest();
    if index >= forest.len() {
        return Ok(());
    }
    let name = forest.get(index).name.list();
    lines.extend_from_slice(name)?;
    match agent.watch().end_of(index) {
        End::At(end) => push_end(alloc, b" believed ", end, lines)?,
        End::Unknown => lines.extend_from_slice(b" unknown")?,
        End::Never => lines.extend_from_slice(b" never ends")?,
    }
    if let Some(end) = running.lanes().table().end_of(name) {
        push_end(alloc, b", at the broker ", end, lines)?;
    }
    lines.push(b'\n')?;
    Ok(())
}

fn push_end(alloc: Global, words: &[u8], end: u64, lines: &mut Vec<u8>) -> Result<(), AllocError> {
    lines.extend_from_slice(words)?;
    push_number(alloc, end, lines)
}
