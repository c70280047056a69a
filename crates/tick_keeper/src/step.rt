ghost use Rattle.tick_keeper.specs.History.{CoreTurn};

use crate::event::{Event, Output};
use crate::fault::StepFault;
use crate::keeper::Keeper;

impl Keeper {
    /// Takes one event. Moments are seconds since 1970-01-01T00:00:00Z, durations whole seconds.
    ///
    /// - A tick plans anew from its moment; a plan whose first wake-up has not passed stays as it is. Nothing left to do is
    ///   [`Output::Idle`], a wake-up that is still to come [`Output::Sleep`] until then. One that is due opens a round:
    ///   [`Output::Ask`] lists the entries that are alive, end before a need that they carry, gain by a renewal and cannot
    ///   wait for the next wake-up. A tick that is not late and opens no round costs nothing that grows with the entries,
    ///   and takes no memory.
    /// - An answer is taken for an entry of the open round: told, the entry ends so many seconds after the round's moment
    ///   and is renewable as told; refused, it is not renewable any more; lost, it stays as it was. While others are waited
    ///   for, this is [`Output::Waiting`]; the last answer closes the round and plans anew from its moment,
    ///   [`Output::Round`] with the next wake-up. Where each entry was told the rule's end and stays renewable, the rest of
    ///   the plan stays.
    /// - A need is set and planned anew from the last moment, [`Output::Planned`].
    ///
    /// Planning anew first shortens each need that no plan can keep; [`take_shortened`](Keeper::take_shortened) has them.
    ///
    /// A refused event leaves the keeper as it was. The refusals, in the order in which they are looked for:
    /// `OutOfRange`, a tick or a need after 9999-12-31T23:59:59Z, or more than 4294967295 seconds told; `BadIndex`, there is
    /// no such entry; `ClockBack`, a tick before the last moment; `RoundOpen`, a tick or a need while a round is open;
    /// `NotAsked`, an answer while no round is open, or of an entry that it does not wait for. Then, of a need alone,
    /// `TooLong`, the plan made anew would have more than 10,000,000 wake-ups: what a tick or an answer plans anew is no
    /// longer than the plan in force was. `OutOfMemory` may come in the place of the output of a tick at the first wake-up or
    /// after it, of the last answer of a round, and of a need, and there in the place of `TooLong`; of no other event.
    ///
    /// Source: Vault, "Lease, renew, and revoke" (a renewal's TTL counts from the renewal).
    pub fn step(&mut self, event: Event) -> Result<Output, StepFault>
        ensures { CoreTurn self.old event result self.new }
    {
        if let Some(fault) = self.refusal(event) {
            return Err(fault);
        }
        match event {
            Event::Tick(at) => self.tick(at),
            Event::Told { i, .. } | Event::Refused(i) | Event::Lost(i) => self.answer(i, event),
            Event::Need { i, until } => self.need(i, until),
        }
    }
}
