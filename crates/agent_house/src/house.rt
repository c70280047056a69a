//! All neighbours of the agent but its clock and its broker.
ghost use Rattle.std.specs.Prelude.{◌≡◌, None};

use crate::given::{Awaited, Given, is_served};
use agent_answers::{Control, Onlookers};
use agent_ends::EndsFile;
use agent_ledger::Keeping;
use agent_log::Desk;
use agent_pages::{FileReading, Standby};
use agent_standing::Agent;
use agent_turns::{AgentChange, Happened, Neighbours};
use base_clients::{Door, Talk};
use base_clock::Reading;
use base_disk::Disk;
use base_log::LogSink;
use std::alloc::Global;
use watch_machine::Next;

/// The log and its reader, the clients of the control socket, the onlookers, what keeps the changes that clients give, and the file of
/// the ends. None of them waits but a disk, and none can stop the agent: all but the log may be absent.
#[derive(Drop)]
pub struct House<S, T, D, K, E> {
    /// Where it is said what happens.
    pub desk: Desk,
    /// Who reads it.
    pub sink: S,
    /// The clients of the control socket, where there is one.
    pub control: Option<Control<T, D>>,
    /// The onlookers, where there is a socket for them.
    pub onlookers: Option<Onlookers<T, D>>,
    /// How the inventory's file was last read.
    pub file: FileReading,
    /// How the agent stands to others that serve the same inventory.
    pub standby: Standby,
    /// What keeps changes over a restart, where something does, or comes to later.
    pub state: Option<K>,
    /// What was given to the loop last, as long as it is not settled.
    pub given: Option<Given>,
    /// The change that waits for the broker's word on its credential, where one does.
    pub awaited: Option<Awaited>,
    /// What was said last of the next time of an entry, by the broker's clock; `None` where nothing was said yet.
    pub next: Option<Option<Next>>,
    /// Where ends are kept over a restart, if they are.
    pub ends: Option<EndsFile<E>>,
}

impl<S, T, D, K, E> House<S, T, D, K, E> {
    /// The log alone: with no control socket, none for onlookers, and nothing that is kept.
    pub fn new(desk: Desk, sink: S, file: FileReading, standby: Standby) -> House<S, T, D, K, E>
        ensures { result ≡ record { desk = desk; sink = sink; control = None; onlookers = None; file = file; standby = standby; state = None; given = None; awaited = None; next = None; ends = None } }
    {
        House {
            desk,
            sink,
            control: None,
            onlookers: None,
            file,
            standby,
            state: None,
            given: None,
            awaited: None,
            next: None,
            ends: None,
        }
    }
}

impl<S: LogSink, T: Talk, D: Door<T>, K: Keeping, E: Disk> Neighbours for House<S, T, D, K, E> {
    ghost use Rattle.agent_house.specs.Doing.{DoesToHouse};
    ghost use Rattle.agent_house.specs.Houses.{changes_given};

    ghost given = { λ h. changes_given h.control h.state };

    ghost does = { λ call old new. DoesToHouse S.written S.failures S.tries S.tried T.remaining T.written T.calls D.log K.does K.rows K.keeps K.path K.reads K.gives E.is_known E.state call old new };

    fn hear(&mut self, alloc: Global, agent: &Agent, happened: &Happened<'_>) {
        match happened {
            Happened::Clocked {
                notes,
                requests,
                next,
            } => {
                self.desk.hear_time(alloc, agent);
                self.desk.hear_clock(alloc, agent, notes, requests);
                self.hear_next(alloc, agent, *next);
            }
            Happened::Shorts(shorts) => self.desk.hear_shorts(alloc, agent, shorts),
            Happened::Answered(handed) => {
                self.hear_end(handed.said.reply);
                self.desk.hear_answer(alloc, agent, handed);
            }
            Happened::Ahead { entry, end } => self.hear_ahead(alloc, agent, *entry, *end),
            Happened::StepsIn { lead, requests } => self.hear_steps(alloc, agent, *lead, requests),
            Happened::Refused | Happened::Wanting => self.desk.hear_wanting(alloc, agent),
        }
    }

    #[tactic(auto, using(crate::proofs::Givers::none_by_looking, crate::proofs::Givers::none_by_attending))]
    fn go_on(&mut self, alloc: Global, agent: &Agent, now: Reading) -> bool {
        self.agent_ends(alloc, agent, now);
        let goes_on = self.look(alloc, agent, now);
        let is_busy = self.attend(alloc, agent, now);
        goes_on || is_busy
    }

    #[tactic(auto, using(crate::proofs::Givers::one_by_asking))]
    fn change(&mut self, alloc: Global, agent: &Agent, now: Reading) -> Option<AgentChange> {
        self.next_change(alloc, agent, now)
    }

    #[tactic(auto, using(crate::proofs::Givers::none_by_settling))]
    fn settle(&mut self, alloc: Global, agent: &Agent, is_made: bool) {
        if is_made && is_served(&self.given) {
            self.hear_served();
        }
        self.settle_given(alloc, agent, is_made);
        self.desk.hear_unmade(alloc, agent, is_made);
    }

    fn rest(&self, now: u64) -> Option<u64> {
        self.rest_for(now)
    }
}
