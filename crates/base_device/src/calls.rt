ghost use Rattle.std.specs.Prelude.{◌≡◌, is_err};
ghost use Rattle.base_device.specs.Memory.{IsCall};

use crate::Failed;
use std::marker::Model;

/// The calls of a device in memory: at most one of them fails, the one whose turn was named.
#[derive(Clone, Copy, Debug)]
pub(crate) struct CallCount {
    before_failure: Option<u64>,
    failures: u64,
}

impl Model for CallCount {
    ghost use Rattle.base_device.specs.Memory.{Calls};

    ghost Value = { Calls };

    ghost view = { λ c. record { before_failure = c.before_failure; failures = c.failures } };

    ghost inverse = { λ c. record { before_failure = c.before_failure; failures = c.failures } };
}

impl CallCount {
    /// No call was made yet. So many calls go well, and the one after them fails; with `None` none does.
    pub(crate) fn new(before_failure: Option<u64>) -> CallCount
        ensures { result ≡ record { before_failure = before_failure; failures = 0 } }
    {
        CallCount {
            before_failure,
            failures: 0,
        }
    }

    /// How many calls failed.
    pub(crate) fn failures(&self) -> u64
        ensures { result ≡ self.now.failures }
    {
        self.failures
    }

    /// Counts one call, and says whether it fails.
    pub(crate) fn begin(&mut self) -> Result<(), Failed>
        ensures { IsCall (is_err result) self.old self.new }
    {
        match self.before_failure {
            Some(0) => {
                self.before_failure = None;
                self.failures = self.failures.saturating_add(1);
                Err(Failed)
            }
            Some(n) => {
                self.before_failure = Some(n - 1);
                Ok(())
            }
            None => Ok(()),
        }
    }
}
