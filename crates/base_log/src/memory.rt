ghost use Rattle.std.specs.Prelude.{◌≡◌, ◌<◌, ◌≤◌, ◌⊎◌, [], IfOk, Some, length, take, drop};
ghost use Rattle.std.specs.Io.KnownBytes.{Appends, Keeps};
ghost use Rattle.base_device.specs.Failures.{one_more};
ghost use Rattle.base_device.specs.Tries.{IfTryDone, MatchTried};
ghost use Rattle.base_device.specs.declared.tried.Tried.TheVariants.{Done, Failed};
ghost use Rattle.base_log.specs.Sinks.{CountsFailure, next_answer, tried_of};
ghost use Rattle.base_log.specs.Turns.{TryIsMade};

use crate::sink::LogSink;
use base_device::Tried;
use std::alloc::Global;
use std::marker::Model;

/// What a sink in memory does at a try.
#[derive(Clone, Copy, Debug, PartialEq, Eq)]
pub enum SinkAnswer {
    /// It takes so many bytes at most, and one at least.
    Takes(usize),
    /// It would have to wait.
    Waits,
    /// It fails.
    Fails,
}

/// A sink that answers as it was told, one try after the other, and past that takes all. It keeps what it takes; where memory
/// runs out it fails. It keeps what its tries came to, too, as long as there is memory for all of them.
#[derive(Debug, Drop)]
pub struct MemoryLogSink {
    answers: Vec<SinkAnswer>,
    next: usize,
    taken: Vec<u8>,
    tried: Option<Vec<Tried>>,
    tries: u64,
    failures: u64,
}

impl Model for MemoryLogSink {
    ghost use Rattle.std.specs.Prelude.{◌≤◌, drop, option_map, vec_len};
    ghost use Rattle.base_log.specs.Sinks.{SinkScript};

    ghost Value = { SinkScript };

    ghost view = { λ s. record { to_come = drop s.next s.answers.items; written = s.taken.items; tried = option_map (λ kept. kept.items) s.tried; tries = s.tries; failures = s.failures } };

    ghost invariant = { λ s. s.next ≤ vec_len s.answers };
}

impl MemoryLogSink {
    /// A sink with these answers to come.
    pub fn new(alloc: Global, answers: Vec<SinkAnswer>) -> MemoryLogSink
        ensures { result ≡ record { to_come = answers.items; written = []; tried = Some []; tries = 0; failures = 0 } }
    {
        MemoryLogSink {
            answers,
            next: 0,
            taken: Vec::new(alloc),
            tried: Some(Vec::new(alloc)),
            tries: 0,
            failures: 0,
        }
    }

    /// What it took.
    pub fn written(&self) -> &[u8]
        ensures { result.now ≡ self.now.written }
    {
        &self.taken
    }

    // The next of its answers, `None` past the last.
    fn answer(&mut self) -> Option<SinkAnswer>
        ensures answer { result ≡ next_answer self.old.to_come }
        ensures rest { self.new ≡ record self.old { to_come = drop 1 self.old.to_come } }
    {
        if self.next == self.answers.len() {
            return None;
        }
        let answer = self.answers[self.next];
        self.next += 1;
        Some(answer)
    }

    // Takes so many bytes.
    fn take(&mut self, piece: &[u8], n: usize) -> Tried
        requires { n ≤ length piece.now }
        ensures bound { IfTryDone result (λ m. m ≡ n) }
        ensures bytes { MatchTried result (λ m. Appends (Some self.old.written) (Some self.new.written) (take m piece.now))
            (self.new.written ≡ self.old.written) }
        ensures tries { self.new.tries ≡ self.old.tries }
        ensures failures { CountsFailure result self.old.failures self.new.failures }
        ensures to_come { self.new.to_come ≡ self.old.to_come }
        ensures tried { self.new.tried ≡ self.old.tried }
        ensures all { (result ≡ Done n) ⊎ (result ≡ Failed) }
    {
        match self.taken.extend_from_slice(&piece[..n]) {
            Ok(()) => Tried::Done(n),
            Err(_) => self.fail(),
        }
    }

    // Counts one failure.
    fn fail(&mut self) -> Tried
        ensures result { result ≡ Failed }
        ensures counted { self.new ≡ record self.old { failures = one_more self.old.failures } }
    {
        self.failures = self.failures.saturating_add(1);
        Tried::Failed
    }

    // Keeps what a try came to, as long as there is memory.
    fn keep(&mut self, tried: Tried)
        ensures tried { TryIsMade tried self.old.tried self.new.tried }
        ensures rest { self.new ≡ record self.old { tried = self.new.tried } }
    {
        let Some(mut kept) = self.tried.take() else {
            return;
        };
        if kept.push(tried).is_ok() {
            self.tried = Some(kept);
        }
    }
}

impl LogSink for MemoryLogSink {
    ghost written = { λ s. Some s.written };

    ghost tried = { λ s. s.tried };

    ghost tries = { λ s. s.tries };

    ghost failures = { λ s. s.failures };

    fn tries(&self) -> u64 {
        self.tries
    }

    fn failures(&self) -> u64 {
        self.failures
    }

    fn give(&mut self, piece: &[u8]) -> Tried
        ensures bound { IfTryDone result (λ n. (n ≤ length piece.now) × (0 < length piece.now → 0 < n)) }
        ensures bytes { MatchTried result (λ n. Appends (Some self.old.written) (Some self.new.written) (take n piece.now))
            (Keeps (Some self.old.written) (Some self.new.written)) }
        ensures tried { TryIsMade result self.old.tried self.new.tried }
        ensures tries { self.new.tries ≡ one_more self.old.tries }
        ensures failures { CountsFailure result self.old.failures self.new.failures }

        // What it was told. Where it is to take something, it may fail instead, for lack of memory.
        ensures answer { MatchTried (tried_of (next_answer self.old.to_come) (length piece.now)) (λ n. (result ≡ Done n) ⊎ (result ≡ Failed))
            (result ≡ tried_of (next_answer self.old.to_come) (length piece.now)) }
        ensures to_come { self.new.to_come ≡ drop 1 self.old.to_come }
    {
        self.tries = self.tries.saturating_add(1);
        let tried = match self.answer() {
            None => self.take(piece, piece.len()),
            Some(SinkAnswer::Takes(n)) => self.take(piece, n.max(1).min(piece.len())),
            Some(SinkAnswer::Waits) => Tried::Waits,
            Some(SinkAnswer::Fails) => self.fail(),
        };
        self.keep(tried);
        tried
    }
}
