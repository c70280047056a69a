//! What happens in a play.
use crate::guests::{Peer, PlayedGuest, guest_named};
use crate::play::{Play, PlayedText};
use crate::running::Running;
use agent_ledger::Late;
use base_words::push_number;
use plan_forest::Forest;
use play_cases::{CaseFault, CaseStep, Setting, lane_fault, number, put_file};
use std::alloc::{AllocError, Global};
use watch_machine::{Operation, Out};

impl<'a> Play<'a> {
    /// Goes on by a step; what came, where it is one of which something comes.
    pub fn go_on(
        &mut self,
        setting: &mut Setting,
        step: &CaseStep<'_>,
    ) -> Result<Option<Vec<u8>>, CaseFault> {
        let words = step.words.as_slice();
        match self.happens(setting, step, words) {
            None => {
                let told = self.outcome(words, step.unread())?;
                Ok(Some(told))
            }
            Some(Ok(())) => Ok(None),
            Some(Err(fault)) => Err(fault),
        }
    }

    // What these words of a step say happens; `None` where they do not say what happens.
    fn happens(
        &mut self,
        setting: &mut Setting,
        step: &CaseStep<'_>,
        words: &[&str],
    ) -> Option<Result<(), CaseFault>> {
        match words {
            ["turns", count] => Some(self.turns(count, step.unread())),
            ["client", name, words @ ..] => Some(self.client_comes(step, name, words)),
            ["onlooker", name, words @ ..] => Some(self.onlooker_comes(step, name, words)),
            ["request", request, fault @ ..] => Some(self.goes_wrong(
                request,
                fault,
                step.unread(),
            )),
            ["file", path, words @ ..] => Some(self.put(step, path, words)),
            ["restart"] => Some(self.restart(setting, step.refused())),
            ["restart", how, seed] => Some(self.end(setting, step, how, seed)),
            // (See sweeps.)
            ["sweep", ..] => Some(Ok(())),
            _ => None,
        }
    }

    // A request to come goes wrong.
    fn goes_wrong(
        &mut self,
        request: &str,
        fault: &[&str],
        unread: CaseFault,
    ) -> Result<(), CaseFault> {
        let request = number(request, unread)?;
        let fault = lane_fault(fault, unread)?;
        self.running.set_fault(request, fault)?;
        Ok(())
    }

    fn put(&mut self, step: &CaseStep<'_>, path: &str, words: &[&str]) -> Result<(), CaseFault> {
        match &mut self.house.others.others.state {
            None | Some(Late::NotYet(_)) => Err(step.refused()),
            Some(Late::Open(ledger)) => put_file(self.alloc, step, path, words, &mut ledger.inputs),
        }
    }

    fn client_comes(
        &mut self,
        step: &CaseStep<'_>,
        name: &str,
        words: &[&str],
    ) -> Result<(), CaseFault> {
        let peer = peer(self.alloc, self.guests, step, name, words)?;
        match &mut self.house.others.others.control {
            None => Err(step.refused()),
            Some(control) => control.door.bring(peer),
        }
    }

    fn onlooker_comes(
        &mut self,
        step: &CaseStep<'_>,
        name: &str,
        words: &[&str],
    ) -> Result<(), CaseFault> {
        let peer = peer(self.alloc, self.guests, step, name, words)?;
        match &mut self.house.others.others.onlookers {
            None => Err(step.refused()),
            Some(onlookers) => onlookers.door.bring(peer),
        }
    }

    fn turns(&mut self, count: &str, unread: CaseFault) -> Result<(), CaseFault> {
        for _ in 0..number(count, unread)? {
            self.running
                .turn(self.alloc, &mut self.clock, &mut self.house);
            keep_asked(self.alloc, &self.running, &mut self.told)?;
        }
        Ok(())
    }
}

// The connection of a guest who comes.
fn peer<'a>(
    alloc: Global,
    guests: &'a [PlayedGuest<'a>],
    step: &CaseStep<'_>,
    name: &str,
    words: &[&str],
) -> Result<Peer<'a>, CaseFault> {
    let guest = guest_named(guests, name, step.unread())?;
    let text = step.bytes(alloc)?;
    Peer::new(guest, text, words, step.unread())
}

// Keeps the requests that are out and were not after the turn before, each under the name that its entry has.
fn keep_asked(alloc: Global, running: &Running, told: &mut PlayedText) -> Result<(), AllocError> {
    let Some(agent) = running.agent() else {
        return Ok(());
    };
    let forest = agent.inventory().forest();
    let mut out = Vec::new(alloc);
    for request in agent.watch().out() {
        let line = line_of(alloc, forest, request)?;
        if !is_among(&told.out, &line) {
            told.requests.extend_from_slice(&line)?;
        }
        out.push(line)?;
    }
    told.out = out;
    Ok(())
}

// Whether a line is among these.
fn is_among(lines: &[Vec<u8>], line: &[u8]) -> bool {
    for one in lines {
        if one.as_slice() == line {
            return true;
        }
    }
    false
}

// When a request was asked, what, and of which entry; nothing of one whose entry is no more.
fn line_of(alloc: Global, forest: &Forest, request: &Out) -> Result<Vec<u8>, AllocError> {
    let mut line = Vec::new(alloc);
    if request.entry >= forest.len() {
        return Ok(line);
    }
    push_number(alloc, request.since, &mut line)?;
    line.extend_from_slice(match request.operation {
        Operation::Look => b" look ",
        Operation::Renew => b" renew ",
    })?;
    line.extend_from_slice(forest.get(request.entry).name.list())?;
    line.push(b'\n')?;
    Ok(line)
}
