//! How long a request may take. Moments are milliseconds of the clock that is handed in.
ghost use Rattle.std.specs.Prelude.{◌≡◌, ◌+◌, ◌*◌, ◌≤◌, min};
ghost use Rattle.vault_lanes.specs.Allowed.{deadline, first_by, most_reads, whole_by};

use crate::stage::RequestStage;

/// The longest time between the bytes of a reply, in milliseconds.
pub(crate) const QUARTER: u64 = 250;

/// When a request was asked, and how long it may take.
///
/// Connect, write and first read may take its patience together. After the first bytes of the reply each read may take a
/// quarter of a second, and all of it 2 S + 2 seconds from the asking, or twice its patience where that is shorter than S, the
/// time-out in seconds. So a request is settled 2 S + 2 seconds after its asking at the latest, and S where the peer is silent.
#[derive(Clone, Copy, Debug, PartialEq, Eq)]
pub struct Allowance {
    /// The moment at which it was asked.
    pub asked: u64,
    /// Milliseconds, at most S seconds.
    pub patience: u64,
    /// S.
    pub seconds: u32,
}

impl Allowance {
    /// That of a request which is asked now with so many milliseconds of patience, where the time-out is so many seconds. A
    /// patience that is longer than the time-out is taken as long as that.
    pub fn new(asked: u64, patience: u64, seconds: u32) -> Allowance
        ensures { result ≡ record { asked = asked; patience = min patience (1000 * seconds); seconds = seconds } }
    {
        Allowance {
            asked,
            patience: patience.min(1000 * seconds as u64),
            seconds,
        }
    }

    /// The moment by which the first bytes of the reply have to be there.
    pub fn first_by(&self) -> u64
        ensures { result ≡ first_by self.now }
    {
        self.asked.saturating_add(self.patience)
    }

    /// The moment by which the reply has to be whole.
    fn whole_by(&self) -> u64
        ensures { result ≡ whole_by self.now }
    {
        let longest = 1000 * self.seconds as u64;
        if self.patience < longest {
            self.asked.saturating_add(self.patience.saturating_mul(2))
        } else {
            self.asked.saturating_add(2 * longest + 2000)
        }
    }

    /// The moment by which a request that has come so far has to come further.
    pub fn deadline(&self, stage: RequestStage) -> u64
        ensures { result ≡ deadline self.now stage }
    {
        match stage {
            RequestStage::Connecting | RequestStage::Sending | RequestStage::Silent =>
                self.first_by(),
            RequestStage::Coming { reads: _, since } => {
                since.saturating_add(QUARTER).min(self.whole_by())
            }
        }
    }

    /// In how many reads a reply may come.
    pub fn most_reads(&self) -> u64
        ensures { result ≡ most_reads self.now }
    {
        8 + 4 * self.seconds as u64
    }
}
