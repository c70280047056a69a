//! The keeper of a run, and what its requests are made of.
ghost use Rattle.std.specs.Prelude.{◌≡◌, ◌<◌, IfSome, length};
ghost use Rattle.tick_keeper.specs.History.{CoreTurn};
ghost use Rattle.vault_exchange.specs.Requests.{ExchangeAsks, renewal_request};
ghost use Rattle.vault_inventory.specs.Inventories.{credential_at};
ghost use Rattle.tick_runs.specs.Agent.{AgentIsFit};
ghost use Rattle.tick_runs.specs.Closed.{shorts_taken};

pub(crate) mod answering;
pub(crate) mod lines;
pub(crate) mod refused;
pub(crate) mod reply;
pub(crate) mod ticking;

use base_moment::Moment;
use plan_forest::Forest;
use std::alloc::{AllocError, Global};
use std::marker::Model;
use tick_keeper::{Event, Keeper, Output, Shortened, StepFault};
use vault_exchange::{Exchange, ask};
use vault_http::Reply;
use vault_inventory::Credentials;

/// A keeper with the credentials of its entries.
#[derive(Debug, Drop)]
pub struct KeeperAgent {
    keeper: Keeper,
    credentials: Credentials,
}

impl Model for KeeperAgent {
    ghost use Rattle.tick_runs.specs.Agent.{AgentIsFit, RunAgent};

    ghost Value = { RunAgent };

    ghost view = { λ a. record { keeper = a.keeper; credentials = a.credentials } };

    ghost invariant = { λ a. AgentIsFit (record { keeper = a.keeper; credentials = a.credentials }) };
}

impl KeeperAgent {
    /// An agent that asks for the entries of this keeper, with a credential for each.
    pub fn new(keeper: Keeper, credentials: Credentials) -> KeeperAgent
        requires { length credentials ≡ length keeper.forest.entries }
        ensures { result ≡ record { keeper = keeper; credentials = credentials } }
    {
        KeeperAgent {
            keeper,
            credentials,
        }
    }

    /// The keeper, with the entries, their ends as told, and the plan in force.
    pub fn keeper(&self) -> &Keeper
        ensures value { result.now ≡ self.now.keeper }
        ensures fit { AgentIsFit self.now }
    {
        &self.keeper
    }

    /// The entries, with the ends as told and the needs in force.
    pub(crate) fn forest(&self) -> &Forest
        ensures { result.now ≡ self.now.keeper.forest }
    {
        self.keeper.forest()
    }

    /// The credential of an entry.
    pub(crate) fn credential(&self, i: u32) -> &[u8]
        requires { i < length self.now.keeper.forest.entries }
        ensures { result.now ≡ credential_at self.now.credentials i }
    {
        self.credentials.get(i)
    }

    /// Hands the keeper an event.
    pub(crate) fn step(&mut self, event: Event) -> Result<Output, StepFault>
        ensures turn { CoreTurn self.old.keeper event result self.new.keeper }
        ensures credentials { self.new.credentials ≡ self.old.credentials }
    {
        self.keeper.step(event)
    }

    /// Takes the needs that the keeper shortened since this was last called.
    pub(crate) fn take_shortened(&mut self) -> Shortened
        ensures value { result ≡ self.old.keeper.shortened }
        ensures after { self.new.keeper ≡ shorts_taken self.old.keeper }
        ensures credentials { self.new.credentials ≡ self.old.credentials }
    {
        self.keeper.take_shortened()
    }

    /// Asks the broker to renew an entry, and gives its reply; `None` where no reply came, or none that could be read. The only
    /// error is lack of memory.
    pub(crate) fn ask<E: Exchange>(
        &self,
        alloc: Global,
        exchange: &mut E,
        t: Moment,
        i: u32,
    ) -> Result<Option<Reply>, AllocError>
        requires { i < length self.now.keeper.forest.entries }
        ensures asked { IfSome (E.behind exchange.old) (λ old. ExchangeAsks old t (renewal_request (E.host_port exchange.old) self.now.credentials self.now.keeper.forest i) result (E.behind exchange.new)) }
        ensures port { E.host_port exchange.new ≡ E.host_port exchange.old }
    {
        let forest = self.keeper.forest();
        ask(alloc, exchange, t, &self.credentials, forest, i)
    }
}
