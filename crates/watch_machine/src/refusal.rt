ghost use Rattle.std.specs.Prelude.{◌≡◌, ◌==◌, ◌&&◌, IfSome};
ghost use Rattle.watch_machine.specs.code.Bounds.{WentOutAtReading};
ghost use Rattle.watch_machine.specs.Refusal.{is_same, refusal, request_out, unless_asked, unless_within};

use crate::event::{Operation, WatchEvent};
use crate::fault::WatchFault;
use crate::lanes::Out;
use crate::watch::Watch;

/// Whether the request is of that entry and for that.
fn is_request(request: Out, entry: u32, operation: Operation) -> bool
    ensures { result ≡ request.entry == entry && is_same request.operation operation }
{
    request.entry == entry && is_same(request.operation, operation)
}

/// Whether both ask the same.
pub(crate) fn is_same(one: Operation, other: Operation) -> bool
    ensures { result ≡ is_same one other }
{
    match (one, other) {
        (Operation::Look, Operation::Look) | (Operation::Renew, Operation::Renew) => true,
        _ => false,
    }
}

impl Watch {
    /// Why the event is refused, `None` where it is not.
    #[tactic(auto, unfolding(crate::specs::Refusal::refusal))]
    pub(crate) fn refusal(&self, event: WatchEvent) -> Option<WatchFault>
        ensures { result ≡ refusal self.now event }
    {
        match event {
            WatchEvent::Clock { .. } | WatchEvent::Begin => None,
            WatchEvent::Looked { entry, .. } => self.unless_asked(entry, Operation::Look),
            WatchEvent::Renewed { entry, .. } => self.unless_asked(entry, Operation::Renew),
            WatchEvent::Need { entry, .. } | WatchEvent::Known { entry, .. } => {
                self.unless_within(entry, None)
            }
        }
    }

    /// `BadIndex` where there is no such entry, else another refusal, if there is one.
    fn unless_within(&self, entry: u32, other: Option<WatchFault>) -> Option<WatchFault>
        ensures { result ≡ unless_within self.now entry other }
    {
        if entry >= self.forest.len() {
            Some(WatchFault::BadIndex)
        } else {
            other
        }
    }

    /// The refusal of an answer: it is to no request that is out, or there is no such entry. One to a request that is out is taken,
    /// also where its entry is no more.
    fn unless_asked(&self, entry: u32, operation: Operation) -> Option<WatchFault>
        ensures { result ≡ unless_asked self.now entry operation }
    {
        match self.request_out(entry, operation) {
            None => self.unless_within(entry, Some(WatchFault::NotAsked)),
            Some(_) => None,
        }
    }

    /// The request that is out of an entry, for that.
    #[tactic(auto, unfolding(crate::specs::Refusal::request_out))]
    pub(crate) fn request_out(&self, entry: u32, operation: Operation) -> Option<Out>
        ensures value { result ≡ request_out self.now.out entry operation }
        ensures bounds { IfSome result WentOutAtReading }
    {
        self.out
            .iter()
            .find(|request| is_request(**request, entry, operation))
            .copied()
    }
}
