ghost use Rattle.std.specs.Prelude.{◌≡◌, ◌≢◌, ◌<◌, IfSome, None, Ok, length};
ghost use Rattle.vault_exchange.specs.Requests.{ExchangeAsks, renewal_request};
ghost use Rattle.vault_exchange.specs.Sockets.{PacesAsked};

use crate::exchange::Exchange;
use crate::fault::ExchangeFault;
use crate::requests::request_for;
use base_moment::Moment;
use plan_forest::Forest;
use std::alloc::{AllocError, Global};
use vault_http::Reply;
use vault_inventory::Credentials;

/// Asks the broker to renew an entry, by a request that names the exchange's port, and gives its reply; `None` where no reply
/// came, or none that could be read. The only error is out of memory.
///
/// Where the broker's table is known, the reply is that of the Broker step at `t`, and the table is as that step leaves it.
/// Known or not, nothing but `None` comes of an exchange that has failed: no connection, no whole request, or a read that failed.
/// After a reply the next call may take the longest time, and else as long as before, or a quarter of a second.
pub fn ask<E: Exchange>(
    alloc: Global,
    exchange: &mut E,
    t: Moment,
    credentials: &Credentials,
    forest: &Forest,
    i: u32,
) -> Result<Option<Reply>, AllocError>
    requires within { i < length forest.now.entries }
    requires credentials { length credentials.now ≡ length forest.now.entries }
    ensures asked { IfSome (E.behind exchange.old) (λ old. ExchangeAsks old t (renewal_request (E.host_port exchange.old) credentials.now forest.now i) result (E.behind exchange.new)) }
    ensures unanswered { result ≢ Ok None → (E.seen exchange.new).failed_calls ≡ (E.seen exchange.old).failed_calls }
    ensures longest { E.longest exchange.new ≡ E.longest exchange.old }
    ensures limit { PacesAsked result (E.longest exchange.old) (E.limit exchange.old) (E.limit exchange.new) }
    ensures port { E.host_port exchange.new ≡ E.host_port exchange.old }
{
    let port = exchange.port();
    let request = request_for(alloc, port, credentials, forest, i)?;
    match exchange.exchange(alloc, t, &request) {
        Ok(reply) => Ok(Some(reply)),
        Err(ExchangeFault::OutOfMemory) => Err(AllocError),
        Err(ExchangeFault::ConnectFailed | ExchangeFault::WriteFailed | ExchangeFault::Http(_)) => {
            Ok(None)
        }
    }
}
