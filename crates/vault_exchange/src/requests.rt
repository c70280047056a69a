ghost use Rattle.std.specs.Prelude.{◌≡◌, ◌<◌, ◌^◌, IfOk, IfSome, IsUtf8, length};
ghost use Rattle.vault_exchange.specs.Requests.{RequestIsFit, lease_renewal, renewal_request, token_renewal};
ghost use Rattle.vault_inventory.specs.Inventories.{IsSendableText};

use base_moment::Text;
use http::Method;
use plan_forest::{Forest, Kind};
use std::alloc::{AllocError, Global};
use vault_http::Request;
use vault_inventory::{Credentials, credentials_are_sendable};
use vault_json::{lease_body, renew_body};

/// The request that renews an entry, to a broker at that port: a token is asked with its own credential, a lease with that
/// of the token that it belongs to; each for its fixed step. The only error is out of memory.
#[tactic(auto, unfolding(crate::specs::Requests::renewal_request))]
pub fn request_for(
    alloc: Global,
    port: u16,
    credentials: &Credentials,
    forest: &Forest,
    i: u32,
) -> Result<Request, AllocError>
    requires within { i < length forest.now.entries }
    requires credentials { length credentials.now ≡ length forest.now.entries }
    ensures is { IfOk result (λ r. r ≡ renewal_request port credentials.now forest.now i) }
    ensures fit { IfOk result RequestIsFit }
{
    let entry = forest.get(i);
    match entry.kind {
        Kind::Token => token_request(alloc, port, credentials.get(i), entry.step),
        Kind::Lease => {
            let owner = match entry.parent {
                None => None,
                Some(p) => Some(Text::of(alloc, credentials.get(p))?),
            };
            lease_request(alloc, port, owner, credentials.get(i), entry.step)
        }
    }
}

/// The request that renews the token with that credential. It can be sent and answered.
fn token_request(
    alloc: Global,
    port: u16,
    credential: &[u8],
    step: u32,
) -> Result<Request, AllocError>
    requires { IsSendableText credential.now }
    ensures is { IfOk result (λ r. r ≡ token_renewal port credential.now step) }
    ensures fit { IfOk result RequestIsFit }
{
    are_bounded(port, step);
    let request = token_message(alloc, port, credential, step)?;
    Ok(request)
}

fn token_message(
    alloc: Global,
    port: u16,
    credential: &[u8],
    step: u32,
) -> Result<Request, AllocError>
    ensures { IfOk result (λ r. r ≡ token_renewal port credential.now step) }
{
    Ok(Request {
        method: Method::POST,
        path: Text::of(alloc, b"/v1/auth/token/renew-self")?,
        token: Some(Text::of(alloc, credential)?),
        body: renew_body(alloc, step)?,
        port,
    })
}

/// The request that renews the lease with that id, with the credential of its token. It can be sent and answered.
fn lease_request(
    alloc: Global,
    port: u16,
    owner: Option<Text>,
    id: &[u8],
    step: u32,
) -> Result<Request, AllocError>
    requires owner { IfSome owner IsSendableText }
    requires id { IsSendableText id.now }
    ensures is { IfOk result (λ r. r ≡ lease_renewal port owner id.now step) }
    ensures fit { IfOk result RequestIsFit }
{
    are_bounded(port, step);
    credentials_are_sendable();
    let request = lease_message(alloc, port, owner, id, step)?;
    Ok(request)
}

fn lease_message(
    alloc: Global,
    port: u16,
    owner: Option<Text>,
    id: &[u8],
    step: u32,
) -> Result<Request, AllocError>
    requires { IsUtf8 id.now }
    ensures { IfOk result (λ r. r ≡ lease_renewal port owner id.now step) }
{
    Ok(Request {
        method: Method::POST,
        path: Text::of(alloc, b"/v1/sys/leases/renew")?,
        token: owner,
        body: lease_body(alloc, id, step)?,
        port,
    })
}

/// The law that a port is one of 65,536 numbers, and a step one of 2^32.
fn are_bounded(port: u16, step: u32)
    ensures port { port < 2 ^ 16 }
    ensures step { step < 2 ^ 32 }
{
    let _ = (port, step);
}

/// The law that a port is one of 65,536 numbers.
pub fn is_port(port: u16)
    ensures { port < 2 ^ 16 }
{
    let _ = port;
}
