ghost use Rattle.std.specs.Prelude.{◌≡◌, ℕ, ◌-◌, ◌<◌, ◌≤◌, List, [], Option, IfOk, IfSome, OnErr, OnOk, length};
ghost use Rattle.vault_exchange.specs.Requests.{IsShortRequest};
ghost use Rattle.base_device.specs.Moments.{earlier};
ghost use Rattle.vault_lanes.specs.Calls.{LanesCall, Renamed, Sent, StoodStill, Unsent, WentOn};
ghost use Rattle.vault_lanes.specs.Out.{AreThereAt, IsDueAfter, IsParted, Out, first_at, renamed};
ghost use Rattle.vault_lanes.specs.Serving.{BehindLanes, BrokerIsLeft, RequestIsSent};
ghost use Rattle.vault_http.specs.RoundTripRequest.{IsWritable};

use crate::loss::Loss;
use base_moment::Moment;
use std::alloc::{AllocError, Global};
use vault_http::{DatedReply, Request};

/// The most lanes.
pub const MOST_WIDTH: u32 = 32;

/// A request, and for whom.
#[derive(Debug, Drop)]
pub struct Ask {
    /// The index of the entry that it is for.
    pub index: u32,
    /// How long connect, write and first read may take together, in milliseconds; at most the lanes' time-out counts.
    pub patience: u64,
    /// What is sent.
    pub request: Request,
}

/// What came of a request.
#[derive(Debug, Drop)]
pub struct Answered {
    /// The index that the request was for.
    pub index: u32,
    /// The reply with its date, or why there is none.
    pub answer: Result<DatedReply, Loss>,
}

/// Lanes to a broker: so many requests may be out at once, each in a lane of its own.
///
/// To contracts they are the requests that are out, by rising index unless they were renamed. Of lanes in memory contracts know the
/// broker's table too, and what comes of each request and when; of those over connections how each request goes on.
pub trait Lanes {
    /// The table, the faults to come and the count of requests, where they are known.
    ghost behind: { Self → Option BehindLanes };

    /// The requests that are out.
    ghost out: { Self → List Out };

    /// How many may be out at once.
    ghost width: { Self → ℕ };

    /// The time-out of a request, in seconds.
    ghost seconds: { Self → ℕ };

    /// The port that its requests name.
    ghost host_port: { Self → ℕ } = { λ _. 8200 };

    /// From a moment on and up to another, the one by which something that is out has to be looked at again.
    ghost due_by: { ℕ → ℕ → Self → ℕ };

    /// What else is known of a call: what it was for, what they were before it, and what they are after it. Of lanes over
    /// connections it says how each request goes on.
    ghost does: { LanesCall → Self → Self → Type 0 } = { λ _ _ _. Unit {0} };

    /// The port that requests to its broker name in `Host`: the broker's own, and 8200 where it has none.
    fn port(&self) -> u16
        ensures { result ≡ host_port self.now };

    /// How many lanes are free.
    fn free(&self) -> u32
        ensures { result ≡ width self.now - length (out self.now) };

    /// Takes a free lane for a request of at most 1 MiB, which is asked at `now`, in milliseconds of the elapsed clock, and
    /// begins to send it. It waits for nothing. In memory it is served at `t`.
    ///
    /// The only error is out of memory: then no lane was taken, and nothing was sent; in memory it may have been served.
    fn send(&mut self, alloc: Global, t: Moment, now: u64, ask: &Ask) -> Result<(), AllocError>
        requires free { length (out self.old) < width self.old }
        requires writable { IsWritable ask.now.request }
        requires short { IsShortRequest ask.now.request }
        ensures sent { OnOk result (RequestIsSent (Self.seconds self.old) t now ask.now (Self.behind self.old) (Self.out self.old) (Self.behind self.new) (Self.out self.new)) }
        ensures does { OnOk result (Self.does (Sent now ask.now) self.old self.new) }
        ensures undone { OnErr result (Self.does Unsent self.old self.new) }
        ensures kept { OnErr result (Self.out self.new ≡ Self.out self.old) }
        ensures left { OnErr result (IfSome (Self.behind self.old) (λ old. BrokerIsLeft t ask.now.request old (Self.behind self.new))) }
        ensures width { Self.width self.new ≡ Self.width self.old }
        ensures seconds { Self.seconds self.new ≡ Self.seconds self.old }
        ensures port { Self.host_port self.new ≡ Self.host_port self.old };

    /// Each that is out goes on as far as it can at `now` without waiting, and is settled where its time is over by then. It
    /// hands back the answers that are there, in their order, each with the index that its request was for. What it hands
    /// back is out no more, and what is left is due later.
    ///
    /// The only error is out of memory: all are out as before.
    fn go_on(&mut self, alloc: Global, now: u64) -> Result<Vec<Answered>, AllocError>
        ensures parted { IfOk result (λ answers. IsParted (Self.out self.old) answers.items (Self.out self.new)) }
        ensures there { IfSome (Self.behind self.old) (λ _. IfOk result (λ answers. AreThereAt now (Self.out self.old) answers.items (Self.out self.new))) }
        ensures does { IfOk result (λ answers. Self.does (WentOn now answers.items) self.old self.new) }
        ensures undone { OnErr result (Self.does (StoodStill now) self.old self.new) }
        ensures settled { OnOk result (IsDueAfter now (λ by. Self.due_by now by self.new)) }
        ensures kept { OnErr result (Self.out self.new ≡ Self.out self.old) }
        ensures behind { Self.behind self.new ≡ Self.behind self.old }
        ensures width { Self.width self.new ≡ Self.width self.old }
        ensures seconds { Self.seconds self.new ≡ Self.seconds self.old }
        ensures port { Self.host_port self.new ≡ Self.host_port self.old };

    /// The moment by which something that is out has to be looked at again, if nothing tells before that it can go on; at most
    /// `by`. `now` is the moment of the elapsed clock, in milliseconds. In memory it is that at which the first answer is there.
    fn due(&self, now: u64, by: u64) -> u64
        ensures due { result ≡ due_by now by self.now }
        ensures known { IfSome (behind self.now) (λ _. result ≡ earlier by (first_at (out self.now))) }
        ensures within { result ≤ by };

    /// Each that is out is for another index from now on: for that in `to` which stands where its own stands in `from`; for the same
    /// where its own stands in none. Nothing else of it changes, nor their order.
    fn rename(&mut self, from: &[u32], to: &[u32])
        ensures renamed { Self.out self.new ≡ renamed from.now to.now (Self.out self.old) }
        ensures does { Self.does (Renamed from.now to.now) self.old self.new }
        ensures behind { Self.behind self.new ≡ Self.behind self.old }
        ensures width { Self.width self.new ≡ Self.width self.old }
        ensures seconds { Self.seconds self.new ≡ Self.seconds self.old }
        ensures port { Self.host_port self.new ≡ Self.host_port self.old };

    /// Gives up all that is out. Its connections are closed, and no answer of it is handed back.
    fn forget(&mut self)
        ensures none { Self.out self.new ≡ [] }
        ensures behind { Self.behind self.new ≡ Self.behind self.old }
        ensures width { Self.width self.new ≡ Self.width self.old }
        ensures seconds { Self.seconds self.new ≡ Self.seconds self.old }
        ensures port { Self.host_port self.new ≡ Self.host_port self.old };
}

/// How many of so many lanes are free.
pub fn free_of(width: u32, out: usize) -> u32
    ensures { result ≡ width - out }
{
    width.saturating_sub(u32::try_from(out).unwrap_or(u32::MAX))
}
