//! How far a request has come, as a value: what each try at its connection makes of it.
ghost use Rattle.std.specs.Prelude.{◌≡◌};
ghost use Rattle.vault_lanes.specs.Stages.{came, failed, stage_once_sent, waits, wrote};
ghost use Rattle.vault_lanes.specs.declared.stage.RequestStage.TheVariants.{Connecting};

use crate::allowance::Allowance;
use crate::loss::Loss;
use crate::reason::ConnectReason;

/// How far a request has come.
#[derive(Clone, Copy, Debug, PartialEq, Eq)]
pub enum RequestStage {
    /// No byte of it was taken: there may be no connection yet.
    Connecting,
    /// Bytes of it were taken, and not all.
    Sending,
    /// All of it was taken, and no byte of the reply has come.
    Silent,
    /// Bytes of the reply have come, in so many reads, the last of them at that moment.
    Coming {
        /// The reads that handed out bytes.
        reads: u64,
        /// Milliseconds of the clock that is handed in.
        since: u64,
    },
}

impl RequestStage {
    /// So many bytes of the request were taken, and so many are left.
    pub fn wrote(self, taken: usize, left: usize) -> RequestStage
        ensures { result ≡ wrote taken left self }
    {
        if left == 0 {
            RequestStage::Silent
        } else if taken > 0 {
            RequestStage::Sending
        } else {
            self
        }
    }

    /// All of the request was taken.
    pub(crate) fn sent(self) -> RequestStage
        ensures stage { result ≡ stage_once_sent self }
        ensures further { result ≡ Connecting → ⊥ }
    {
        match self {
            RequestStage::Connecting | RequestStage::Sending | RequestStage::Silent =>
                RequestStage::Silent,
            RequestStage::Coming { reads, since } => RequestStage::Coming { reads, since },
        }
    }

    /// A read handed out bytes now, and the reply is not whole. In as many reads as it may come in, it took too long.
    pub fn came(self, allowance: &Allowance, now: u64) -> Result<RequestStage, Loss>
        ensures { result ≡ came allowance.now now self }
    {
        let reads = match self {
            RequestStage::Connecting | RequestStage::Sending | RequestStage::Silent => 1,
            RequestStage::Coming { reads, since: _ } => reads.saturating_add(1),
        };
        if reads < allowance.most_reads() {
            Ok(RequestStage::Coming { reads, since: now })
        } else {
            Err(Loss::Timeout)
        }
    }

    /// A try would have had to wait: it waits on, unless its time is over.
    pub fn waits(self, allowance: &Allowance, now: u64) -> Result<(), Loss>
        ensures { result ≡ waits allowance.now now self }
    {
        if now < allowance.deadline(self) {
            Ok(())
        } else {
            Err(Loss::Timeout)
        }
    }

    /// A try failed, for this reason.
    pub fn failed(self, reason: ConnectReason) -> Loss
        ensures { result ≡ failed reason self }
    {
        match self {
            RequestStage::Connecting => Loss::Connect(reason),
            RequestStage::Sending | RequestStage::Silent | RequestStage::Coming { .. } =>
                Loss::Closed,
        }
    }
}
