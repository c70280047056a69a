//! What clients ask for is carried out, and what is given of it to the loop is settled.
ghost use Rattle.std.specs.Prelude.{◌≡◌, Some};
ghost use Rattle.agent_house.specs.Commands.{AsksFor, CarriesIf, CarriesOut, GoesOnWithClients, InventoryIsDue, IsGivenWith, ServesClients, SettlesAnswer, SettlesAside, SettlesGiven, SettlesNeed, SettlesServed, SettlesUnchanged, StateIsServed, TellsNeed, reach_of_need};
ghost use Rattle.agent_house.specs.Houses.{ClientsAsk};
ghost use Rattle.program_lines.specs.Text.{name_of};

use crate::client_answer::{answer, answer_aside};
use crate::given::{Given, GivenAside, GivenNeed};
use crate::house::House;
use crate::keep_news::keeps;
use agent_answers::{ClientOrder, Control};
use agent_ledger::Keeping;
use agent_log::{Mark, fresh_marks};
use agent_standing::Agent;
use agent_turns::AgentChange;
use agent_words::{need_line, need_reply};
use base_clients::{Door, Talk};
use base_clock::Reading;
use base_moment::{LAST, Text};
use program_lines::name_of;
use state_changes::ChangeKind;
use std::alloc::{AllocError, Global};
use std::mem;
use vault_inventory::Inventory;
use watch_machine::Watch;

impl<S, T: Talk, D: Door<T>, K: Keeping, E> House<S, T, D, K, E> {
    /// The next change that the loop is to make: the inventory that is due; else the change that has waited for the
    /// broker's word, once that is there; else what the first of the clients asks for whose line has ended is carried out. Its client
    /// is told what came of it once the change is settled. Where memory was wanting, there is no change, and that is said.
    pub fn next_change(&mut self, alloc: Global, agent: &Agent, now: Reading) -> Option<AgentChange>
        ensures { AsksFor K.does K.rows K.keeps K.path K.reads K.gives agent.now now result self.old self.new }
    {
        match due_with_marks(alloc, &self.state, now) {
            Ok(None) => self.go_on_with_clients(alloc, agent, now),
            Ok(Some((inventory, marks))) => {
                self.given = Some(given_with(agent, &inventory, marks));
                Some(AgentChange::Serve(inventory))
            }
            Err(AllocError) => {
                self.desk.hear_refusal(alloc, agent);
                None
            }
        }
    }

    // What has waited for the broker's word is carried out, or refused, once that is there; else what the first of the clients asks for.
    fn go_on_with_clients(
        &mut self,
        alloc: Global,
        agent: &Agent,
        now: Reading,
    ) -> Option<AgentChange>
        ensures { GoesOnWithClients K.does K.rows K.keeps K.path K.reads K.gives agent.now now result self.old self.new }
    {
        if self.hear_verdict(alloc, agent, now) {
            return Some(AgentChange::Kept);
        }
        self.serve_clients(alloc, agent, now)
    }

    // What the first of the clients asks for is carried out, once who does not keep changes yet has tried again to.
    fn serve_clients(&mut self, alloc: Global, agent: &Agent, now: Reading) -> Option<AgentChange>
        ensures { ServesClients K.does K.rows K.keeps K.path K.reads K.gives agent.now now result self.old self.new }
    {
        let asked = asked_of(alloc, &mut self.control, now);
        self.try_again(alloc, now, &asked);
        self.carry_out_if(alloc, agent, now, asked)
    }

    // Carries out what a client asks for, where one does.
    fn carry_out_if(
        &mut self,
        alloc: Global,
        agent: &Agent,
        now: Reading,
        asked: Result<Option<ClientOrder>, AllocError>,
    ) -> Option<AgentChange>
        ensures { CarriesIf K.does K.rows K.keeps K.path K.reads K.gives agent.now now asked result self.old self.new }
    {
        match asked {
            Ok(None) => None,
            Ok(Some(asked)) => Some(self.carry_out(alloc, agent, now, asked)),
            Err(AllocError) => {
                self.desk.hear_refusal(alloc, agent);
                None
            }
        }
    }

    // Carries out what a client asks for.
    fn carry_out(
        &mut self,
        alloc: Global,
        agent: &Agent,
        now: Reading,
        asked: ClientOrder,
    ) -> AgentChange
        ensures { CarriesOut K.does K.rows K.keeps K.path K.reads K.gives agent.now now asked result self.old self.new }
    {
        match asked {
            ClientOrder::Need { name, need } => return self.need(
                alloc,
                agent,
                now,
                name.list(),
                &need,
            ),
            ClientOrder::Replace { name, credential } => {
                self.look_up_first(alloc, agent, now, name, ChangeKind::Replace(credential))
            }
            ClientOrder::Add { table } => self.add(alloc, agent, now, table.list()),
            ClientOrder::Drop { name } => self.drop_entry(alloc, agent, now, name.list()),
            ClientOrder::Settle => self.settle_file(alloc, agent, now),
            ClientOrder::Reload => self.reload(alloc, agent, now),
            ClientOrder::Follow { alerts } => self.follow(alloc, now, alerts),
        }
        AgentChange::Kept
    }

    /// What was given last is settled: its client is told what came of it; where it was not made, it is told nothing, and its
    /// connection is closed. Once the inventory that was due is served, no change waits for it.
    pub fn settle_given(&mut self, alloc: Global, agent: &Agent, is_made: bool)
        ensures { SettlesGiven K.does K.keeps agent.now is_made self.old self.new }
    {
        match mem::replace(&mut self.given, None) {
            None => {}
            Some(Given::Need(need)) => self.settle_need(alloc, agent, need, is_made),
            Some(Given::Answer { sent, at }) => self.settle_answer(alloc, agent, sent, at, is_made),
            Some(Given::Aside(aside)) => self.settle_aside(alloc, agent, aside, is_made),
            Some(Given::Served(marks)) => self.settle_served(agent, marks, is_made),
            Some(Given::Unchanged) => self.settle_unchanged(is_made),
        }
    }

    fn settle_need(&mut self, alloc: Global, agent: &Agent, need: GivenNeed, is_made: bool)
        ensures { SettlesNeed K.keeps agent.now is_made need self.old self.new }
    {
        if is_made {
            self.tell_need(alloc, agent, need);
        } else {
            answer(&mut self.control, Vec::new(alloc), need.at);
        }
    }

    // The log says that the entry is needed until then, and its client is told, also if it reaches less far; where nothing keeps
    // changes, also that a restart ends it.
    fn tell_need(&mut self, alloc: Global, agent: &Agent, need: GivenNeed)
        ensures { TellsNeed K.keeps agent.now (name_of agent.now.inventory.forest need.entry) (reach_of_need agent.now.machine need.entry need.until) need.until need.at self.old self.new }
    {
        let name = name_of(agent.inventory().forest(), need.entry);
        let line = need_line(alloc, name, need.until).ok();
        self.desk.hear_need(alloc, agent, name, need.until);
        let reach = reach_of(agent.watch(), need.entry, need.until);
        let reply = need_reply(alloc, line, reach, keeps(&self.state));
        self.send(alloc, agent, reply, need.at);
    }

    fn settle_answer(
        &mut self,
        alloc: Global,
        agent: &Agent,
        sent: Option<Text>,
        now: u64,
        is_made: bool,
    )
        ensures { SettlesAnswer agent.now is_made sent now self.old self.new }
    {
        if is_made {
            self.send(alloc, agent, sent, now);
        } else {
            answer(&mut self.control, Vec::new(alloc), now);
        }
    }

    fn settle_aside(&mut self, alloc: Global, agent: &Agent, aside: GivenAside, is_made: bool)
        ensures { SettlesAside agent.now is_made aside.client aside.sent aside.at self.old self.new }
    {
        if is_made {
            self.send_aside(alloc, agent, aside);
        } else {
            answer_aside(&mut self.control, aside.client, Vec::new(alloc), aside.at);
        }
    }

    fn settle_served(&mut self, agent: &Agent, marks: Vec<Mark>, is_made: bool)
        ensures { SettlesServed K.does agent.now is_made marks.items self.old self.new }
    {
        if is_made {
            mark_served(&mut self.state);
            self.desk.serve(agent, marks);
        }
    }

    fn settle_unchanged(&mut self, is_made: bool)
        ensures { SettlesUnchanged K.does is_made self.old self.new }
    {
        if is_made {
            mark_served(&mut self.state);
        }
    }
}

// What is given with an inventory, and marks for its entries.
fn given_with(agent: &Agent, inventory: &Inventory, marks: Vec<Mark>) -> Given
    ensures { IsGivenWith agent.now inventory.now marks.items (Some result) }
{
    if agent.serves(inventory) {
        Given::Unchanged
    } else {
        Given::Served(marks)
    }
}

// The inventory that is due, and fresh marks for its entries. The only error is out of memory, which may be wanting where one is due.
#[tactic(auto, using(crate::proofs::Wanting::wanting_it, crate::proofs::Wanting::wanting_marks))]
fn due_with_marks<K: Keeping>(
    alloc: Global,
    state: &Option<K>,
    now: Reading,
) -> Result<Option<(Inventory, Vec<Mark>)>, AllocError>
    ensures { InventoryIsDue K.gives now result state.now }
{
    let Some(state) = state else {
        return Ok(None);
    };
    let Some(inventory) = state.due(alloc, now.elapsed)? else {
        return Ok(None);
    };
    let marks = fresh_marks(alloc, inventory.forest().len())?;
    Ok(Some((inventory, marks)))
}

// What the clients ask for, where there is a control socket. The only error is out of memory.
fn asked_of<T: Talk, D: Door<T>>(
    alloc: Global,
    control: &mut Option<Control<T, D>>,
    now: Reading,
) -> Result<Option<ClientOrder>, AllocError>
    ensures { ClientsAsk now result control.old control.new }
{
    match control {
        None => Ok(None),
        Some(control) => control.asked(alloc, now),
    }
}

// The inventory that was due is served, where something keeps changes.
fn mark_served<K: Keeping>(state: &mut Option<K>)
    ensures { StateIsServed K.does state.old state.new }
{
    if let Some(state) = state {
        state.mark_served();
    }
}

// Until when an entry can be kept that is needed until then, where that is less.
fn reach_of(watch: &Watch, entry: u32, until: u64) -> Option<u64>
    ensures { result ≡ reach_of_need watch.now entry until }
{
    if entry < watch.forest().len() && until != LAST {
        watch.short_of(entry)
    } else {
        None
    }
}
