ghost use Rattle.std.specs.Prelude.{◌≡◌, ◌≤◌, ℕ, Option, IfSome, IsTrue, length};
ghost use Rattle.vault_http.specs.RoundTripRequest.{IsWritable};
ghost use Rattle.vault_exchange.specs.Exchanges.{Behind, Exchanges, CountsExchange};
ghost use Rattle.vault_exchange.specs.Requests.{IsShortRequest};
ghost use Rattle.vault_exchange.specs.Sockets.{Paces};

use crate::ExchangeFault;
use crate::requests::is_port;
use base_moment::Moment;
use std::alloc::Global;
use vault_http::{Device, Reply, Request};

/// What carries a request to a broker and its reply back.
///
/// To contracts an exchange in memory is the broker's table and the bytes that its last exchange has carried; of one over
/// sockets they know nothing.
pub trait Exchange: Device {
    /// The table behind it, and the messages of its last exchange, where they are known.
    ghost behind: { Self → Option Behind };

    /// The port that its requests name.
    ghost host_port: { Self → ℕ } = { λ _. 8200 };

    /// How long each connect, read or write may take at first, in nanoseconds; 0 where nothing is waited for.
    ghost longest: { Self → ℕ } = { λ _. 0 };

    /// How long the next one may take: as long as at first, or a quarter of a second after one that took longer.
    ghost limit: { Self → ℕ } = { λ _. 0 };

    /// The port that requests to its broker name in `Host`: the broker's own, and 8200 where it has none.
    fn port(&self) -> u16
        ensures { result ≡ host_port self.now };

    /// A new event line begins: each connect, read and write may take as long as at first again.
    fn begin_line(&mut self)
        ensures behind { Self.behind self.new ≡ Self.behind self.old }
        ensures count { (Self.seen self.new).failed_calls ≡ (Self.seen self.old).failed_calls }
        ensures longest { Self.longest self.new ≡ Self.longest self.old }
        ensures limit { Self.limit self.new ≡ Self.longest self.old }
        ensures port { Self.host_port self.new ≡ Self.host_port self.old };

    /// Sends a request of at most 1 MiB, which is served at `t`, and reads the reply.
    ///
    /// Where the table is known the reply is that of the Broker step, and the table is as that step leaves it. A reply that
    /// the broker drops is `Http(Truncated)`; one of more than 1 MiB is `Http(TooLong)`. `OutOfMemory`: the table is as it
    /// was, or as serving the request has left it.
    ///
    /// Over sockets: `ConnectFailed`, there is no connection; `WriteFailed`, the request was not sent whole;
    /// `Http(ReadFailed)`, a read failed, and the other faults of `Http` are those of the bytes. Each of the three is
    /// counted as one failure.
    fn exchange(
        &mut self,
        alloc: Global,
        t: Moment,
        request: &Request,
    ) -> Result<Reply, ExchangeFault>
        requires writable { IsWritable request.now }
        requires short { IsShortRequest request.now }
        ensures exchanged { IfSome (Self.behind self.old) (λ old. Exchanges old.table t request.now result (Self.behind self.new)) }
        ensures count { CountsExchange result (Self.seen self.old).failed_calls (Self.seen self.new).failed_calls }
        ensures longest { Self.longest self.new ≡ Self.longest self.old }
        ensures limit { Paces result (Self.longest self.old) (Self.limit self.old) (Self.limit self.new) }
        ensures port { Self.host_port self.new ≡ Self.host_port self.old };
}

/// Whether [`Exchange::exchange`] may be asked to carry the request. It is so of every request with a body of at most 2,000
/// bytes that can be written.
#[tactic(auto, using(crate::proofs::Sendable::carried))]
pub fn can_carry(request: &Request) -> bool
    ensures writable { IsTrue result → IsWritable request.now }
    ensures short { IsTrue result → IsShortRequest request.now }
    ensures each { IsWritable request.now → length request.now.body ≤ 2000 → IsTrue result }
{
    is_port(request.port);
    request.is_writable() && request.body.list().len() <= 2000
}
