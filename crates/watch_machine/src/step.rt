ghost use Rattle.std.specs.Prelude.{◌≡◌, ◌≢◌, None, IfErr, IfOk, IfSome, IsOkUnless, Err, OnErr};
ghost use Rattle.watch_machine.specs.Answers.{answers_all, link, noted, replied};
ghost use Rattle.watch_machine.specs.declared.fault.WatchFault.{WatchFault};
ghost use Rattle.watch_machine.specs.declared.fault.WatchFault.TheVariants.{OutOfMemory};
ghost use Rattle.watch_machine.specs.History.{Turn};
ghost use Rattle.watch_machine.specs.Looked.{looked};
ghost use Rattle.watch_machine.specs.Refusal.{refusal, request_out};
ghost use Rattle.watch_machine.specs.Renewed.{state_renewed};
ghost use Rattle.watch_machine.specs.Step.{StepLooked, StepRenewed, notes_looked, notes_renewed, taken};
ghost use Rattle.watch_machine.specs.declared.event.Operation.TheVariants.{Look, Renew};

use crate::answers::{back_all, hear_all, is_back, is_gone, take_out};
use crate::command::{WatchCommand, WatchOutput};
use crate::event::{Operation, WatchEvent, WatchReply, WatchTerms};
use crate::fault::WatchFault;
use crate::lanes::{LaneAnswer, Out};
use crate::notes::{Link, Notes};
use crate::settling::is_real;
use crate::watch::Watch;
use std::alloc::Global;

impl Watch {
    /// Takes one event. Readings of clocks are milliseconds, durations whole seconds.
    ///
    /// - A clock settles the answers since the last one: the broker's clock by the dates that came, a pause for each try that
    ///   failed. Then everything is looked up anew where it has to be, who has to be asked is pressed, and a round opens where
    ///   one of them is in the plan. The answer is [`WatchCommand::Go`]: as many requests as lanes are free, and the moment until which
    ///   nothing else is to be done.
    /// - The answer to a request that is out is taken for its entry, and its lane is free. Each request is to be answered, in
    ///   whatever order; one whose answer never comes is handed in as lost. Where its entry is no more ([`Watch::change`]), it is heard
    ///   for what it says of the broker alone.
    /// - A need is set, a beginning asked for, an end that an earlier watch told taken over; where that is past a lookup is owed.
    ///
    /// A refused event leaves the watch as it was. The refusals: `BadIndex`, there is no such entry; `NotAsked`, an answer to no
    /// request that is out. `OutOfMemory` may come in the place of the answer to a clock, and to an answer.
    ///
    /// What an event gives, and what becomes of the watch, is the turn of the definitions.
    pub fn step(&mut self, alloc: Global, event: WatchEvent) -> Result<WatchOutput, WatchFault>
        ensures turn { Turn self.old event result self.new }
        ensures refused { IfSome (refusal self.old event) (λ fault. result ≡ Err fault) }
        ensures memory { refusal self.old event ≡ None → IsOkUnless result WatchFault.OutOfMemory }
        ensures unchanged { OnErr result (self.new ≡ self.old) }
    {
        if let Some(fault) = self.refusal(event) {
            return Err(fault);
        }
        match event {
            WatchEvent::Clock { wall, elapsed } => self.clock(alloc, wall, elapsed),
            WatchEvent::Looked {
                entry,
                reply,
                terms,
            } => self.take_looked(entry, reply, terms),
            WatchEvent::Renewed { entry, reply } => self.take_renewed(alloc, entry, reply),
            WatchEvent::Need { entry, until } => {
                self.need(entry, until);
                Ok(taken(Notes::none()))
            }
            WatchEvent::Begin => {
                self.ask_beginning();
                Ok(taken(Notes::none()))
            }
            WatchEvent::Known {
                entry,
                end,
                renewable,
            } => {
                self.know(entry, end, renewable);
                Ok(taken(Notes::none()))
            }
        }
    }

    /// Takes the answer to a lookup. The only error is lack of memory, where the request is out.
    fn take_looked(
        &mut self,
        entry: u32,
        reply: WatchReply,
        terms: WatchTerms,
    ) -> Result<WatchOutput, WatchFault>
        ensures step { IfOk result (λ output. StepLooked self.old (request_out self.old.out entry Look) reply terms output self.new) }
        ensures refused { request_out self.old.out entry Look ≢ None → IfErr result (λ fault. fault ≡ OutOfMemory) }
        ensures unchanged { OnErr result (self.new ≡ self.old) }
    {
        let Some(request) = self.request_out(entry, Operation::Look) else {
            return Err(WatchFault::NotAsked);
        };
        self.note(request, reply)?;
        let notes = self.looked(request, reply, terms);
        let link = self.replied(request, reply);
        Ok(taken(Notes { link, ..notes }))
    }

    /// Takes the answer to a renewal. The only error is lack of memory, where the request is out.
    fn take_renewed(
        &mut self,
        alloc: Global,
        entry: u32,
        reply: WatchReply,
    ) -> Result<WatchOutput, WatchFault>
        ensures step { IfOk result (λ output. StepRenewed self.old (request_out self.old.out entry Renew) reply output self.new) }
        ensures refused { request_out self.old.out entry Renew ≢ None → IfErr result (λ fault. fault ≡ OutOfMemory) }
        ensures unchanged { OnErr result (self.new ≡ self.old) }
    {
        let Some(request) = self.request_out(entry, Operation::Renew) else {
            return Err(WatchFault::NotAsked);
        };
        self.note(request, reply)?;
        let line = self.line_renewed(alloc, request, reply);
        let top = self.renewed(request, reply);
        let link = self.replied(request, reply);
        self.keep_line(line);
        Ok(taken(Notes {
            top,
            link,
            ..Notes::none()
        }))
    }

    /// Notes an answer until the next clock. The only error is lack of memory.
    fn note(&mut self, request: Out, reply: WatchReply) -> Result<(), WatchFault>
        ensures value { IfOk result (λ _. self.new ≡ noted self.old request reply) }
        ensures refused { IfErr result (λ fault. fault ≡ OutOfMemory) }
        ensures unchanged { OnErr result (self.new ≡ self.old) }
    {
        self.answers.push(LaneAnswer {
            since: request.since,
            heard: request.heard,
            reply,
        })?;
        Ok(())
    }

    /// Takes an answer for what it says of the broker, and gives what is noted of that.
    fn replied(&mut self, request: Out, reply: WatchReply) -> Option<Link>
        ensures state { self.new ≡ replied self.old request reply }
        ensures link { result ≡ link self.old request reply }
    {
        let was_away = self.presence.away;
        self.lull = None;
        self.line.known = false;
        take_out(&mut self.out, request.entry);
        if is_real(reply) {
            self.answers_all();
            if was_away { Some(Link::Back) } else { None }
        } else if request.heard || was_away {
            None
        } else {
            self.presence = is_gone(self.presence);
            Some(Link::Away)
        }
    }

    /// The broker answers: all that are out hear of it, and it is away no more.
    fn answers_all(&mut self)
        ensures { self.new ≡ answers_all self.old }
    {
        self.lull = None;
        self.line.known = false;
        hear_all(&mut self.out);
        if self.presence.away {
            back_all(&mut self.tracks);
            self.presence = is_back(self.presence);
        }
    }
}

/// What is given where an event is taken.
fn taken(notes: Notes) -> WatchOutput
    ensures { result ≡ taken notes }
{
    WatchOutput {
        command: WatchCommand::Taken,
        notes,
    }
}
