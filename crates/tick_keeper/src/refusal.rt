ghost use Rattle.std.specs.Prelude.{◌≡◌};
ghost use Rattle.tick_keeper.specs.Refusal.{step_refusal, unless_closed, unless_waited_for};

use crate::event::Event;
use crate::fault::StepFault;
use crate::keeper::Keeper;
use base_moment::LAST;

/// The greatest duration, in seconds.
pub const LONGEST: u64 = 4294967295;

impl Keeper {
    /// Why the event is refused, whatever the plan made anew would be; `None` where it is not.
    #[tactic(auto, unfolding(crate::specs::Refusal::step_refusal))]
    pub(crate) fn refusal(&self, event: Event) -> Option<StepFault>
        ensures { result ≡ step_refusal self.now event }
    {
        match event {
            Event::Tick(at) => {
                if at > LAST {
                    Some(StepFault::OutOfRange)
                } else if at < self.last.get() {
                    Some(StepFault::ClockBack)
                } else {
                    self.unless_closed()
                }
            }
            Event::Told { i, seconds, .. } => {
                if seconds > LONGEST {
                    Some(StepFault::OutOfRange)
                } else {
                    self.unless_asked(i)
                }
            }
            Event::Refused(i) | Event::Lost(i) => self.unless_asked(i),
            Event::Need { i, until } => {
                if until > LAST {
                    Some(StepFault::OutOfRange)
                } else if i >= self.forest.len() {
                    Some(StepFault::BadIndex)
                } else {
                    self.unless_closed()
                }
            }
        }
    }

    /// The refusal of what has to wait until no round is open.
    fn unless_closed(&self) -> Option<StepFault>
        ensures { result ≡ unless_closed self.now }
    {
        if self.round.is_some() {
            Some(StepFault::RoundOpen)
        } else {
            None
        }
    }

    /// The refusal of an answer: there is no such entry, or it is not waited for.
    fn unless_asked(&self, i: u32) -> Option<StepFault>
        ensures { result ≡ unless_waited_for self.now i }
    {
        if i >= self.forest.len() {
            Some(StepFault::BadIndex)
        } else if self.waits_for(i) {
            None
        } else {
            Some(StepFault::NotAsked)
        }
    }
}
