//! What the machine asks, as it is handed to the lanes.
ghost use Rattle.std.specs.Prelude.{◌≡◌, ◌<◌, IfOk, length};
ghost use Rattle.vault_exchange.specs.Requests.{IsShortRequest};
ghost use Rattle.vault_asking.specs.Asking.{ask_of, message, patience_in};
ghost use Rattle.vault_http.specs.RoundTripRequest.{IsWritable};

use std::alloc::{AllocError, Global};
use vault_exchange::{lookup_for, request_for};
use vault_inventory::Inventory;
use vault_lanes::Ask;
use watch_machine::{Operation, Patience, Watch, WatchRequest};

/// A request of the machine as it is handed to lanes whose broker listens at that port, with the credentials of the inventory
/// that the machine was made of. A renewal asks for the step that the machine has, which lookups have told. The only error is
/// out of memory.
pub fn ask_for(
    alloc: Global,
    port: u16,
    inventory: &Inventory,
    watch: &Watch,
    request: WatchRequest,
) -> Result<Ask, AllocError>
    requires within { request.entry < length watch.now.forest.entries }
    requires whole { length watch.now.forest.entries ≡ length inventory.now.forest.entries }
    ensures is { IfOk result (λ ask. ask ≡ ask_of port inventory.now watch.now request) }
    ensures writable { IfOk result (λ ask. IsWritable ask.request) }
    ensures short { IfOk result (λ ask. IsShortRequest ask.request) }
{
    Ok(Ask {
        index: request.entry,
        patience: patience_in(request.patience),
        request: message(alloc, port, inventory, watch, request)?,
    })
}

/// The message to a broker at that port.
fn message(
    alloc: Global,
    port: u16,
    inventory: &Inventory,
    watch: &Watch,
    request: WatchRequest,
) -> Result<vault_http::Request, AllocError>
    requires within { request.entry < length watch.now.forest.entries }
    requires whole { length watch.now.forest.entries ≡ length inventory.now.forest.entries }
    ensures is { IfOk result (λ sent. sent ≡ message port inventory.now watch.now request) }
    ensures writable { IfOk result IsWritable }
    ensures short { IfOk result IsShortRequest }
{
    let entry = request.entry;
    match request.operation {
        Operation::Look => lookup_for(alloc, port, inventory, entry),
        Operation::Renew => {
            let credentials = inventory.credentials();
            request_for(alloc, port, credentials, watch.forest(), entry)
        }
    }
}

/// How long a request may take, in milliseconds; of lanes no more than their time-out counts.
fn patience_in(patience: Patience) -> u64
    ensures { result ≡ patience_in patience }
{
    match patience {
        Patience::Full => u64::MAX,
        Patience::AtMost(millis) => millis,
    }
}
