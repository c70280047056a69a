ghost use Rattle.std.specs.Prelude.{◌≡◌, ◌<◌, ◌≢◌, IfOk, IfSome, IsUtf8, Ok, false, true, length};
ghost use Rattle.vault_exchange.specs.Lookups.{LooksUp, lookup_in, inventory_after_lookup, behind_if};
ghost use Rattle.vault_exchange.specs.Requests.{IsShortRequest, lease_looked, lookup_of, token_looked};
ghost use Rattle.vault_exchange.specs.Sockets.{PacesLooked, Slows};
ghost use Rattle.vault_inventory.specs.Inventories.{IsSendableText};
ghost use Rattle.vault_http.specs.RoundTripRequest.{IsWritable};
ghost use Rattle.vault_json.specs.Answer.{GivesOrReplyFault};

use crate::exchange::Exchange;
use crate::fault::ExchangeFault;
use crate::requests::is_port;
use base_moment::{Moment, Text};
use http::Method;
use plan_forest::Kind;
use std::alloc::{AllocError, Global};
use vault_http::{Reply, Request};
use vault_inventory::{Inventory, credentials_are_sendable};
use vault_json::{Lookup, ReplyFault, lookup_body, read_lookup_lease, read_lookup_self};

/// Looks an entry up at `t` with the broker, by a request that names the exchange's port, and makes of it what the broker says.
/// `false`: no reply came, or none with status 200 that can be read, or it says what is not applied to this entry; the inventory
/// is then as it was. The only error is out of memory. No lookup changes the number of entries.
///
/// Whatever the exchange, the inventory is what some reply makes of it. Where the broker's table is known, that reply is the one
/// of the Broker step, and the table is as that step leaves it. Known or not, nothing but `false` comes of an exchange that has
/// failed: no connection, no whole request, or a read that failed. After a reply the next call may take the longest time, and
/// else as long as before, or a quarter of a second.
pub fn look_up<E: Exchange>(
    alloc: Global,
    exchange: &mut E,
    t: Moment,
    inventory: &mut Inventory,
    i: u32,
) -> Result<bool, AllocError>
    requires { i < length inventory.old.forest.entries }
    ensures looked { LooksUp (E.host_port exchange.old) (E.behind exchange.old) t inventory.old i result inventory.new (E.behind exchange.new) }
    ensures unapplied { result ≢ Ok true → inventory.new ≡ inventory.old }
    ensures unanswered { result ≢ Ok false → (E.seen exchange.new).failed_calls ≡ (E.seen exchange.old).failed_calls }
    ensures count { length inventory.new.forest.entries ≡ length inventory.old.forest.entries }
    ensures longest { E.longest exchange.new ≡ E.longest exchange.old }
    ensures limit { PacesLooked result (E.longest exchange.old) (E.limit exchange.old) (E.limit exchange.new) }
    ensures failed { (E.seen exchange.new).failed_calls ≢ (E.seen exchange.old).failed_calls → Slows (E.longest exchange.old) (E.limit exchange.old) (E.limit exchange.new) }
    ensures port { E.host_port exchange.new ≡ E.host_port exchange.old }
{
    let port = exchange.port();
    let request = lookup_for(alloc, port, inventory, i)?;
    match exchange.exchange(alloc, t, &request) {
        Ok(reply) => apply(alloc, inventory, i, t, &reply),
        Err(ExchangeFault::OutOfMemory) => Err(AllocError),
        Err(ExchangeFault::ConnectFailed | ExchangeFault::WriteFailed | ExchangeFault::Http(_)) => {
            Ok(false)
        }
    }
}

/// The request that looks an entry up, to a broker at that port: a token with its own credential, a lease with that of the
/// token it belongs to. The only error is out of memory.
#[tactic(auto, unfolding(crate::specs::Requests::lookup_of))]
pub fn lookup_for(
    alloc: Global,
    port: u16,
    inventory: &Inventory,
    i: u32,
) -> Result<Request, AllocError>
    requires { i < length inventory.now.forest.entries }
    ensures is { IfOk result (λ r. r ≡ lookup_of port inventory.now.credentials inventory.now.forest i) }
    ensures writable { IfOk result IsWritable }
    ensures short { IfOk result IsShortRequest }
{
    let entry = inventory.forest().get(i);
    match entry.kind {
        Kind::Token => token_lookup(alloc, port, inventory.credential(i)),
        Kind::Lease => {
            let owner = match entry.parent {
                None => None,
                Some(p) => Some(Text::of(alloc, inventory.credential(p))?),
            };
            lease_lookup(alloc, port, owner, inventory.credential(i))
        }
    }
}

/// Applies a reply to the entry that was looked up, if it says something of it.
fn apply(
    alloc: Global,
    inventory: &mut Inventory,
    i: u32,
    t: Moment,
    reply: &Reply,
) -> Result<bool, AllocError>
    requires { i < length inventory.old.forest.entries }
    ensures applied { IfOk result (λ is. inventory_after_lookup inventory.old i t (Ok reply.now) ≡ behind_if is inventory.new) }
    ensures unapplied { result ≢ Ok true → inventory.new ≡ inventory.old }
    ensures count { length inventory.new.forest.entries ≡ length inventory.old.forest.entries }
{
    if reply.status != 200 {
        return Ok(false);
    }
    let kind = inventory.forest().get(i).kind;
    match lookup_in(alloc, kind, reply.body.list()) {
        Ok(lookup) => Ok(inventory.apply_lookup(i, &lookup, t).is_ok()),
        Err(ReplyFault::OutOfMemory) => Err(AllocError),
        Err(_) => Ok(false),
    }
}

/// What the body of a reply says of an entry of that kind.
pub(crate) fn lookup_in(alloc: Global, kind: Kind, body: &[u8]) -> Result<Lookup, ReplyFault>
    ensures { GivesOrReplyFault (λ x. x) result (lookup_in kind body.now) }
{
    match kind {
        Kind::Token => read_lookup_self(alloc, body),
        Kind::Lease => read_lookup_lease(alloc, body),
    }
}

fn token_lookup(alloc: Global, port: u16, credential: &[u8]) -> Result<Request, AllocError>
    requires { IsSendableText credential.now }
    ensures is { IfOk result (λ r. r ≡ token_looked port credential.now) }
    ensures writable { IfOk result IsWritable }
    ensures short { IfOk result IsShortRequest }
{
    is_port(port);
    let request = token_message(alloc, port, credential)?;
    Ok(request)
}

fn token_message(alloc: Global, port: u16, credential: &[u8]) -> Result<Request, AllocError>
    ensures { IfOk result (λ r. r ≡ token_looked port credential.now) }
{
    Ok(Request {
        method: Method::GET,
        path: Text::of(alloc, b"/v1/auth/token/lookup-self")?,
        token: Some(Text::of(alloc, credential)?),
        body: Text::of(alloc, b"")?,
        port,
    })
}

fn lease_lookup(
    alloc: Global,
    port: u16,
    owner: Option<Text>,
    id: &[u8],
) -> Result<Request, AllocError>
    requires owner { IfSome owner IsSendableText }
    requires id { IsSendableText id.now }
    ensures is { IfOk result (λ r. r ≡ lease_looked port owner id.now) }
    ensures writable { IfOk result IsWritable }
    ensures short { IfOk result IsShortRequest }
{
    is_port(port);
    credentials_are_sendable();
    let request = lease_message(alloc, port, owner, id)?;
    Ok(request)
}

fn lease_message(
    alloc: Global,
    port: u16,
    owner: Option<Text>,
    id: &[u8],
) -> Result<Request, AllocError>
    requires { IsUtf8 id.now }
    ensures { IfOk result (λ r. r ≡ lease_looked port owner id.now) }
{
    Ok(Request {
        method: Method::POST,
        path: Text::of(alloc, b"/v1/sys/leases/lookup")?,
        token: owner,
        body: lookup_body(alloc, id)?,
        port,
    })
}
