//! What a client wants, by what it has sent.
ghost use Rattle.std.specs.Prelude.{◌≡◌, ◌≢◌, IfOk};
ghost use Rattle.agent_control.specs.Requests.{request_in_line};
ghost use Rattle.agent_control.specs.When.{need_at};
ghost use Rattle.agent_control.specs.declared.fault.RequestFault.TheVariants.{OutOfMemory};
ghost use Rattle.agent_answers.specs.Wanting.{ClientWants, needed, refusal_text, wanted_if, wanted_now};
ghost use Rattle.agent_answers.specs.declared.wanted.Wanted.TheVariants.{Refused};
ghost use Rattle.agent_answers.specs.declared.wanted.ClientRefusal.TheVariants.{Fault};

use crate::asked::ClientOrder;
use agent_control::{ControlRequest, Front, RequestFault, When, front_of, read_request};
use agent_pages::Page;
use base_moment::{Moment, Name};
use std::alloc::{AllocError, Global};
use vault_inventory::Need;

/// What a client wants.
#[derive(Drop)]
pub enum Wanted {
    /// This is to be done.
    Do(ClientOrder),
    /// It is to be shown this.
    Show(Page),
    /// Nothing that is done.
    Refused(ClientRefusal),
}

/// Why a client is refused.
#[derive(Clone, Copy, Debug, PartialEq, Eq)]
pub enum ClientRefusal {
    /// It has sent no request.
    Fault(RequestFault),
    /// The time from now ends after [`LAST`](base_moment::LAST).
    TooLate,
}

impl ClientRefusal {
    /// The reason in words, for the one who asked.
    #[tactic(auto, unfolding(crate::specs::Wanting::refusal_text))]
    pub fn text(self) -> &'static str
        ensures { result.now ≡ refusal_text self }
    {
        match self {
            ClientRefusal::Fault(fault) => fault.why(),
            ClientRefusal::TooLate => "WHEN is after 9999-12-31T23:59:59Z",
        }
    }
}

/// What a client wants that has sent these bytes, at a moment of the machine's clock, in seconds since 1970-01-01T00:00:00Z. The
/// only error is out of memory.
#[tactic(auto, using(crate::proofs::Reading::by_line))]
pub(crate) fn wanted_of(alloc: Global, now: u64, bytes: &[u8]) -> Result<Wanted, AllocError>
    ensures { IfOk result (λ it. ClientWants now bytes.now it) }
{
    match front_of(bytes) {
        Front::Open => Ok(Wanted::Refused(ClientRefusal::Fault(RequestFault::NotWords))),
        Front::TooLong => Ok(Wanted::Refused(ClientRefusal::Fault(RequestFault::TooLong))),
        Front::Whole(length) => wanted_by_line(alloc, now, &bytes[..length]),
    }
}

/// What is wanted by a line, which is without its line feed.
#[tactic(auto, using(crate::proofs::Reading::not_read))]
fn wanted_by_line(alloc: Global, now: u64, line: &[u8]) -> Result<Wanted, AllocError>
    ensures { IfOk result (λ it. it ≡ wanted_if now (request_in_line line.now)) }
{
    match read_request(alloc, line) {
        Ok(request) => Ok(wanted_now(now, request)),
        Err(fault) => wanted_by_fault(fault),
    }
}

/// What is wanted by a line that was not read: to be told why. The only error is out of memory.
fn wanted_by_fault(fault: RequestFault) -> Result<Wanted, AllocError>
    ensures { IfOk result (λ it. (fault ≢ OutOfMemory) × (it ≡ Refused (Fault fault))) }
{
    match fault {
        RequestFault::OutOfMemory => Err(AllocError),
        RequestFault::TooLong
        | RequestFault::NotWords
        | RequestFault::NoCommand
        | RequestFault::BadName
        | RequestFault::BadWhen
        | RequestFault::BadCredential => Ok(Wanted::Refused(ClientRefusal::Fault(fault))),
    }
}

/// What a request wants.
fn wanted_now(now: u64, request: ControlRequest) -> Wanted
    ensures { result ≡ wanted_now now request }
{
    match request {
        ControlRequest::Need { name, when } => needed(name, need_at(now, when)),
        ControlRequest::Replace { name, credential } => Wanted::Do(ClientOrder::Replace {
            name,
            credential,
        }),
        ControlRequest::Add { table } => Wanted::Do(ClientOrder::Add { table }),
        ControlRequest::Drop { name } => Wanted::Do(ClientOrder::Drop { name }),
        ControlRequest::Settle => Wanted::Do(ClientOrder::Settle),
        ControlRequest::Reload => Wanted::Do(ClientOrder::Reload),
        ControlRequest::Status => Wanted::Show(Page::Listing),
        ControlRequest::Health => Wanted::Show(Page::Health),
        ControlRequest::Follow { alerts } => Wanted::Do(ClientOrder::Follow { alerts }),
    }
}

/// The need that it is at a moment, which may be past the last one.
fn need_at(now: u64, when: When) -> Option<Need>
    ensures { result ≡ need_at now when }
{
    match when {
        When::Fixed(need) => Some(need),
        When::FromNow(_) => when.need_at(Moment::new(now)?),
    }
}

/// A need of the entry of that name.
fn needed(name: Name, need: Option<Need>) -> Wanted
    ensures { result ≡ needed name need }
{
    match need {
        None => Wanted::Refused(ClientRefusal::TooLate),
        Some(need) => Wanted::Do(ClientOrder::Need { name, need }),
    }
}
