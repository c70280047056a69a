//! A credential is looked up before a client's change is made that brings it.
ghost use Rattle.std.specs.Prelude.{◌≡◌, IfSome};
ghost use Rattle.agent_house.specs.Awaiting.{HearsOfAwaited, HearsVerdict, Judges, JudgesAside, LooksUpBy, LooksUpFirst, Makes, ProvesBy, SetsAside, TellsNothingAside, addressed};

use crate::client_answer::set_aside;
use crate::given::{Awaited, addressed};
use crate::house::House;
use agent_ledger::{Keeping, LookedUp};
use agent_standing::Agent;
use agent_turns::AgentAt;
use agent_words::{why_endless, why_later, why_refused};
use base_clients::{Door, Talk};
use base_clock::Reading;
use base_moment::Name;
use state_changes::ChangeKind;
use std::alloc::{AllocError, Global};
use std::mem;
use vault_lanes::Loss;
use vault_proving::Verdict;

impl<S, T: Talk, D: Door<T>, K: Keeping, E> House<S, T, D, K, E> {
    /// A change of the entry of that name is made once the credential was looked up that it brings: at once, where there is nothing to
    /// be looked up. Where another one is being looked up, the client is told to try again.
    pub(crate) fn look_up_first(
        &mut self,
        alloc: Global,
        agent: &Agent,
        now: Reading,
        name: Name,
        what: ChangeKind,
    )
        ensures { LooksUpFirst K.does K.rows agent.now now name what self.old self.new }
    {
        let at = AgentAt { agent, now };
        match look_up(alloc, &mut self.state, now, name.list(), &what) {
            Ok(LookedUp::Out) => self.set_aside(name, what),
            Ok(LookedUp::Later) => self.will_tell(alloc, Err(why_later(alloc)), now.elapsed),
            Ok(LookedUp::Nothing) => self.make(alloc, at, name.list(), what, None),
            Err(AllocError) => self.will_tell(alloc, Err(None), now.elapsed),
        }
    }

    // It waits for the broker's word, and its client is set aside till then.
    fn set_aside(&mut self, name: Name, what: ChangeKind)
        ensures { SetsAside name what self.old self.new }
    {
        let client = set_aside(&mut self.control);
        self.awaited = Some(Awaited { client, name, what });
    }

    // It is made. `why` says why the broker has said nothing of its credential, where it was asked and has not.
    fn make(
        &mut self,
        alloc: Global,
        at: AgentAt<'_>,
        name: &[u8],
        what: ChangeKind,
        why: Option<Loss>,
    )
        ensures { Makes K.does K.rows at.entry.agent.now at.entry.now name.now what why self.old self.new }
    {
        match what {
            ChangeKind::Replace(credential) => self.replace(alloc, at, name, credential, why),
            ChangeKind::Add(row) => self.add_row(alloc, at, name, row, why),
            ChangeKind::Need(_) | ChangeKind::Drop => {
                self.will_tell(alloc, Err(None), at.now.elapsed)
            }
        }
    }

    /// The change that waits for the broker's word is made, or refused, once that is there. Whether it was there. Where memory is
    /// wanting for it, the change is not made, and its client is told nothing.
    pub(crate) fn hear_verdict(&mut self, alloc: Global, agent: &Agent, now: Reading) -> bool
        ensures { HearsVerdict K.does K.rows agent.now now result self.old self.new }
    {
        let Some(awaited) = mem::replace(&mut self.awaited, None) else {
            return false;
        };
        self.hear_of(alloc, agent, now, awaited)
    }

    // The same of a change that waits. `awaited` is not in the house meanwhile.
    fn hear_of(&mut self, alloc: Global, agent: &Agent, now: Reading, awaited: Awaited) -> bool
        ensures { HearsOfAwaited K.does K.rows agent.now now awaited result self.old self.new }
    {
        match prove(alloc, &mut self.state, now.elapsed) {
            Ok(None) => {
                self.awaited = Some(awaited);
                false
            }
            Ok(Some(verdict)) => {
                self.judge_aside(alloc, agent, now, awaited, verdict);
                true
            }
            Err(AllocError) => {
                self.tell_nothing(alloc, now, awaited);
                true
            }
        }
    }

    // The change is made, or refused, by the verdict, and the client that was set aside is to be told.
    fn judge_aside(
        &mut self,
        alloc: Global,
        agent: &Agent,
        now: Reading,
        awaited: Awaited,
        verdict: Verdict,
    )
        ensures { JudgesAside K.does K.rows agent.now now awaited verdict self.old self.new }
    {
        let client = awaited.client;
        self.judge(alloc, agent, now, awaited, verdict);
        self.address(client);
    }

    // The client that was set aside is told nothing.
    fn tell_nothing(&mut self, alloc: Global, now: Reading, awaited: Awaited)
        ensures { TellsNothingAside now awaited self.old self.new }
    {
        self.will_tell(alloc, Err(None), now.elapsed);
        self.address(awaited.client);
    }

    // What is to be told now is for the client that was set aside.
    fn address(&mut self, client: Option<u64>)
        ensures { self.new ≡ record self.old { given = addressed client self.old.given } }
    {
        let given = mem::replace(&mut self.given, None);
        self.given = addressed(given, client);
    }

    // The change that has waited is made, or refused, by the verdict on its credential.
    fn judge(
        &mut self,
        alloc: Global,
        agent: &Agent,
        now: Reading,
        awaited: Awaited,
        verdict: Verdict,
    )
        ensures { Judges K.does K.rows agent.now now awaited.name awaited.what verdict self.old self.new }
    {
        let Awaited {
            client: _,
            name,
            what,
        } = awaited;
        let at = AgentAt { agent, now };
        match verdict {
            Verdict::Good => self.make(alloc, at, name.list(), what, None),
            Verdict::Missing(why) => self.make(alloc, at, name.list(), what, Some(why)),
            Verdict::Refused(status) => {
                let why = why_refused(alloc, name.list(), &what, status).ok();
                self.will_tell(alloc, Err(why), now.elapsed);
            }
            Verdict::Endless => {
                let why = why_endless(alloc, name.list(), &what).ok();
                self.will_tell(alloc, Err(why), now.elapsed);
            }
        }
    }
}

// Looks the credential up that this change brings, where something keeps changes.
fn look_up<K: Keeping>(
    alloc: Global,
    state: &mut Option<K>,
    now: Reading,
    name: &[u8],
    what: &ChangeKind,
) -> Result<LookedUp, AllocError>
    ensures { LooksUpBy K.does now name.now what.now result state.old state.new }
{
    match state {
        None => Ok(LookedUp::Nothing),
        Some(state) => state.look_up(alloc, now, name, what),
    }
}

// The verdict, where something keeps changes and it is there.
fn prove<K: Keeping>(
    alloc: Global,
    state: &mut Option<K>,
    now: u64,
) -> Result<Option<Verdict>, AllocError>
    ensures { ProvesBy K.does now result state.old state.new }
{
    match state {
        None => Ok(None),
        Some(state) => state.prove(alloc, now),
    }
}
