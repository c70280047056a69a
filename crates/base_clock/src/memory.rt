ghost use Rattle.std.specs.Prelude.{◌≡◌, [], IfOk, length, true};
ghost use Rattle.base_device.specs.Failures.{CountsRead};
ghost use Rattle.std.specs.Result.{result_ok};
ghost use Rattle.base_clock.specs.Scripts.{after_read, later_readings, next_reading, seen_of_script, with_call};
ghost use Rattle.base_clock.specs.Seen.{CallIsMade, read_call};
ghost use Rattle.base_clock.specs.declared.call.ClockCall.TheVariants.{Wait};

use crate::call::ClockCall;
use crate::clock::Clock;
use crate::reading::Reading;
use base_device::Failed;
use std::alloc::{AllocError, Global};
use std::marker::Model;

/// A clock that reads what it was given. Its waits pass no time. It keeps its calls, as long as there is room for them.
#[derive(Debug, Drop)]
pub struct MemoryClock {
    readings: Vec<Option<Reading>>,
    next: usize,
    calls: Vec<ClockCall>,
    room: usize,
    is_whole: bool,
    failures: u64,
}

impl Model for MemoryClock {
    ghost use Rattle.std.specs.Prelude.{◌≤◌, drop, vec_capacity, vec_len};
    ghost use Rattle.base_clock.specs.Scripts.{ClockScript};

    ghost Value = { ClockScript };

    ghost view = { λ c. record { to_come = drop c.next c.readings.items; calls = c.calls.items; room = c.room; is_whole = c.is_whole; failures = c.failures } };

    ghost invariant = { λ c. (c.next ≤ vec_len c.readings) × (c.room ≤ vec_capacity c.calls) };
}

impl MemoryClock {
    /// A clock with these readings to come, `None` for one that fails; past the last of them each fails. It keeps its first
    /// `room` calls. The only error is out of memory.
    pub fn new(
        alloc: Global,
        readings: Vec<Option<Reading>>,
        room: usize,
    ) -> Result<MemoryClock, AllocError>
        ensures { IfOk result (λ clock. clock ≡ record { to_come = readings.items; calls = []; room = room; is_whole = true; failures = 0 }) }
    {
        Ok(MemoryClock {
            readings,
            next: 0,
            calls: Vec::with_capacity(alloc, room)?,
            room,
            is_whole: true,
            failures: 0,
        })
    }

    /// The calls that it keeps, the first of them first.
    pub fn calls(&self) -> &[ClockCall]
        ensures { result.now ≡ self.now.calls }
    {
        &self.calls
    }

    /// Whether these are all.
    pub fn is_whole(&self) -> bool
        ensures { result ≡ self.now.is_whole }
    {
        self.is_whole
    }

    // Keeps a call, where there is room.
    fn keep(&mut self, call: ClockCall)
        ensures { self.new ≡ with_call call self.old }
    {
        if self.calls.len() < self.room {
            self.calls.push(call).unwrap();
        } else {
            self.is_whole = false;
        }
    }

    // The next of its readings, `None` where it fails.
    fn take(&mut self) -> Option<Reading>
        ensures reading { result ≡ next_reading self.old.to_come }
        ensures rest { self.new ≡ record self.old { to_come = later_readings self.old.to_come } }
    {
        if self.next == self.readings.len() {
            return None;
        }
        let reading = self.readings[self.next];
        self.next += 1;
        reading
    }
}

impl Clock for MemoryClock {
    ghost seen = { λ c. seen_of_script c };

    fn failures(&self) -> u64 {
        self.failures
    }

    fn read(&mut self) -> Result<Reading, Failed>
        ensures made { CallIsMade (read_call (result_ok result)) (seen_of_script self.old) (seen_of_script self.new) }
        ensures count { CountsRead result self.old.failures self.new.failures }

        // What it reads, and what comes of it.
        ensures reading { result_ok result ≡ next_reading self.old.to_come }
        ensures script { self.new ≡ after_read self.old }
    {
        match self.take() {
            Some(Reading { wall, elapsed }) => {
                self.keep(ClockCall::Read { wall, elapsed });
                Ok(Reading { wall, elapsed })
            }
            None => {
                self.failures = self.failures.saturating_add(1);
                self.keep(ClockCall::Unread);
                Err(Failed)
            }
        }
    }

    fn wait(&mut self, millis: u64)
        ensures made { CallIsMade (Wait millis) (seen_of_script self.old) (seen_of_script self.new) }
        ensures count { self.new.failures ≡ self.old.failures }
        ensures script { self.new ≡ with_call (Wait millis) self.old }
    {
        self.keep(ClockCall::Wait { millis });
    }
}
