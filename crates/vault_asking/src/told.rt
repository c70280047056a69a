//! What the machine is told of an answer.
ghost use Rattle.std.specs.Prelude.{◌≡◌, ◌<◌, IfOk, length};
ghost use Rattle.vault_inventory.specs.Lookup.{lookup_fault};
ghost use Rattle.watch_machine.specs.declared.event.WatchReply.TheVariants as replies;
ghost use Rattle.vault_asking.specs.Told.{end_told, is_of_another, is_of_broker, lookup_reply, lookup_terms, loss_in, no_terms, renewal_reply, said_of_entry, said_of_nobody, said_to, terms_told};

use base_moment::{Moment, Span};
use std::alloc::{AllocError, Global};
use vault_exchange::ToldTerms as Told;
use vault_http::DatedReply;
use vault_inventory::{Inventory, LookupFault, told_terms};
use vault_json::{Lookup, Renewed};
use vault_lanes::{HeardAnswer, Loss, hear_lookup, hear_renewal};
use watch_machine::{Operation, WatchReply, WatchTerms};

/// What an answer says: what the machine is told of it, the terms that a lookup told, and why it counts as lost, where it does.
#[derive(Clone, Copy, Debug, PartialEq, Eq)]
pub struct Said {
    pub reply: WatchReply,
    pub terms: WatchTerms,
    pub loss: Loss,
}

/// What the answer to a request of the entry says, by the terms that lookups of it are judged by; of one whose entry is no more its
/// status alone is read. The only error is out of memory.
pub fn said_to(
    alloc: Global,
    inventory: &Inventory,
    operation: Operation,
    entry: u32,
    answer: &Result<DatedReply, Loss>,
) -> Result<Said, AllocError>
    ensures { IfOk result (λ said. said ≡ said_to inventory.now operation entry answer.now) }
{
    if entry < inventory.forest().len() {
        said_of_entry(alloc, inventory, operation, entry, answer)
    } else {
        Ok(said_of_nobody(answer))
    }
}

/// The same of an entry that is.
pub fn said_of_entry(
    alloc: Global,
    inventory: &Inventory,
    operation: Operation,
    entry: u32,
    answer: &Result<DatedReply, Loss>,
) -> Result<Said, AllocError>
    requires { entry < length inventory.now.forest.entries }
    ensures { IfOk result (λ said. said ≡ said_of_entry inventory.now operation entry answer.now) }
{
    let kind = inventory.forest().get(entry).kind;
    match operation {
        Operation::Look => {
            let heard = hear_lookup(alloc, kind, answer)?;
            Ok(said_of_lookup(inventory, entry, &heard))
        }
        Operation::Renew => {
            let id = inventory.credential(entry);
            let heard = hear_renewal(alloc, kind, id, answer)?;
            Ok(said_of_renewal(&heard))
        }
    }
}

/// What the answer says to a request whose entry is no more: whether the broker is there.
fn said_of_nobody(answer: &Result<DatedReply, Loss>) -> Said
    ensures { result ≡ said_of_nobody answer.now }
{
    let (reply, loss) = match answer {
        Ok(dated) if is_of_broker(dated.reply.status) => {
            (WatchReply::Busy, Loss::Status(dated.reply.status))
        }
        Ok(dated) => (WatchReply::Lost, Loss::Status(dated.reply.status)),
        Err(why) => (WatchReply::Lost, *why),
    };
    Said {
        reply,
        terms: no_terms(),
        loss,
    }
}

/// Whether a broker that is there gives a reply that status.
fn is_of_broker(status: u16) -> bool
    ensures { result ≡ is_of_broker status }
{
    match status {
        200 | 400 | 403 | 404 | 405 | 429 => true,
        _ => false,
    }
}

/// The terms of a reply that tells none.
fn no_terms() -> WatchTerms
    ensures { result ≡ no_terms }
{
    WatchTerms {
        step: None,
        ceiling: None,
        orphan: false,
        endless: false,
    }
}

/// What an answer to a renewal says.
fn said_of_renewal(heard: &HeardAnswer<Renewed>) -> Said
    ensures { result ≡ record { reply = renewal_reply heard.now; terms = no_terms; loss = loss_in heard.now } }
{
    Said {
        reply: renewal_reply(heard),
        terms: no_terms(),
        loss: loss_in(heard),
    }
}

/// What an answer to the lookup of an entry says.
fn said_of_lookup(inventory: &Inventory, entry: u32, heard: &HeardAnswer<Told>) -> Said
    requires { entry < length inventory.now.forest.entries }
    ensures { result ≡ record { reply = lookup_reply inventory.now entry heard.now; terms = lookup_terms inventory.now entry heard.now; loss = loss_in heard.now } }
{
    let (reply, terms) = lookup_reply(inventory, entry, heard);
    Said {
        reply,
        terms,
        loss: loss_in(heard),
    }
}

/// Why an answer counts as lost, where it does: a lookup that is said of another entry cannot be used, and the broker was busy
/// with 429.
fn loss_in<T>(heard: &HeardAnswer<T>) -> Loss
    ensures { result ≡ loss_in heard.now }
{
    match heard {
        HeardAnswer::Told(..) => Loss::Reply,
        HeardAnswer::Refused(status, _) => Loss::Status(*status),
        HeardAnswer::Busy => Loss::Status(429),
        HeardAnswer::Lost(why) => *why,
    }
}

/// What the machine is told of an answer to a renewal.
fn renewal_reply(heard: &HeardAnswer<Renewed>) -> WatchReply
    ensures { result ≡ renewal_reply heard.now }
{
    match heard {
        HeardAnswer::Told(renewed, date) => told(renewed.seconds, renewed.renewable, *date),
        HeardAnswer::Refused(status, date) => refused(*status, *date),
        HeardAnswer::Busy => WatchReply::Busy,
        HeardAnswer::Lost(_) => WatchReply::Lost,
    }
}

/// What the machine is told of an answer to the lookup of an entry. One that is said of another entry, or of the other kind,
/// counts as lost.
#[tactic(auto, unfolding(crate::specs::Told::lookup_reply, crate::specs::Told::lookup_terms))]
fn lookup_reply(
    inventory: &Inventory,
    entry: u32,
    heard: &HeardAnswer<Told>,
) -> (WatchReply, WatchTerms)
    requires { entry < length inventory.now.forest.entries }
    ensures reply { result.0 ≡ lookup_reply inventory.now entry heard.now }
    ensures terms { result.1 ≡ lookup_terms inventory.now entry heard.now }
{
    match heard {
        HeardAnswer::Told(said, date) => {
            if is_of_another(inventory, entry, &said.lookup) {
                return (WatchReply::Lost, no_terms());
            }
            let terms = terms_of(inventory, entry, said);
            (end_told(&said.lookup, *date), terms)
        }
        HeardAnswer::Refused(status, date) => (refused(*status, *date), no_terms()),
        HeardAnswer::Busy => (WatchReply::Busy, no_terms()),
        HeardAnswer::Lost(_) => (WatchReply::Lost, no_terms()),
    }
}

fn told(seconds: Span, renewable: bool, date: Option<Moment>) -> WatchReply
    ensures { result ≡ replies.Told seconds renewable date }
{
    WatchReply::Told {
        seconds,
        renewable,
        date: seconds_of(date),
    }
}

fn refused(status: u16, date: Option<Moment>) -> WatchReply
    ensures { result ≡ replies.Refused status date }
{
    WatchReply::Refused {
        status,
        date: seconds_of(date),
    }
}

fn seconds_of(date: Option<Moment>) -> Option<u64>
    ensures { result ≡ date }
{
    match date {
        None => None,
        Some(date) => Some(date.get()),
    }
}

/// Whether the lookup is said of another entry, or of the other kind.
fn is_of_another(inventory: &Inventory, entry: u32, lookup: &Lookup) -> bool
    requires { entry < length inventory.now.forest.entries }
    ensures { result ≡ is_of_another (lookup_fault inventory.now entry lookup.now) }
{
    match inventory.lookup_fault(entry, lookup) {
        Some(LookupFault::OtherKind | LookupFault::OtherEntry) => true,
        Some(LookupFault::OtherTree | LookupFault::NoStep) | None => false,
    }
}

/// The end that a lookup tells, and whether the entry can be renewed.
fn end_told(lookup: &Lookup, date: Option<Moment>) -> WatchReply
    ensures { result ≡ end_told lookup.now date }
{
    match lookup {
        Lookup::Token { ttl, renewable, .. } | Lookup::Lease { ttl, renewable, .. } => {
            told(*ttl, *renewable, date)
        }
    }
}

/// The terms that a lookup tells: a step and an orphan are a token's alone, and the ceiling counts from the issue that it tells.
fn terms_of(inventory: &Inventory, entry: u32, said: &Told) -> WatchTerms
    requires { entry < length inventory.now.forest.entries }
    ensures { result ≡ terms_told inventory.now entry said.now }
{
    let terms = told_terms(&said.lookup, inventory.terms(entry));
    let (step, orphan) = match &said.lookup {
        Lookup::Token { orphan, .. } => (Some(terms.step()), *orphan),
        Lookup::Lease { .. } => (None, false),
    };
    WatchTerms {
        step,
        ceiling: terms.ceiling(),
        orphan,
        endless: said.never_ends,
    }
}
