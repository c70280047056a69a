ghost use Rattle.std.specs.Prelude.{◌≡◌, ◌++◌, ◌∷◌, [], None, Err, IfErr, IfOk, IfSome, IsErrOf, OnErr, OnOk, IsOkUnless, is_some, option_map};
ghost use Rattle.vault_http.specs.declared.known.TheConstants.{MOST_MESSAGE};
ghost use Rattle.vault_http.specs.Reading.{CountsMessage, HandedNoRequest, SettlesRequest};
ghost use Rattle.base_device.specs.declared.limits.TheConstants.{MOST_READS};
ghost use Rattle.base_device.specs.Whole.{MakesAtMost};
ghost use Rattle.broker_rule.specs.Rows.{broker_rows, row_named};
ghost use Rattle.broker_rule.specs.Sweep.{swept};
ghost use Rattle.broker_rule.specs.Faults.{fault_refusal};
ghost use Rattle.broker_rule.specs.Step.{SaysAnswer, after_sweep, broker_step};
ghost use Rattle.broker_table.specs.Stream.{CountsStream, FaultLeaves, Handles, IsStreamed, StreamFails};

use crate::faults::Faults;
use crate::serve::refuse;
use crate::slot::{end_named, place_named};
use crate::slots::Slots;
use crate::stream::{StreamFault, send};
use base_device::Watched;
use base_moment::Moment;
use broker_rule::{Fault, Refusal, ServeFault, Served, SetFault};
use std::alloc::{AllocError, Global};
use std::marker::Model;
use vault_http::{HttpFault, MOST_MESSAGE, Request, Room, Sink, Source};
use vault_inventory::Inventory;

/// The tokens and leases of a broker, with the faults to come and the count of renewal requests.
///
/// To contracts it is the record of its rows, its faults and its count.
#[derive(Debug, Drop)]
pub struct Table {
    pub(crate) slots: Slots,
    pub(crate) faults: Faults,
    /// What the requests of streams are read into.
    room: Room,
}

impl Model for Table {
    ghost use Rattle.broker_rule.specs.Table.{BrokerTable};
    ghost use Rattle.broker_table.specs.Slots.{listed_rows};

    ghost Value = { BrokerTable };

    ghost view = { λ t. record { rows = listed_rows t.slots; faults = t.faults.faults; count = t.faults.count } };
}

impl Table {
    /// The rows of an inventory, with no faults and no request counted. The only error is out of memory.
    pub fn load(alloc: Global, inventory: &Inventory) -> Result<Table, AllocError>
        ensures { IfOk result (λ table. table ≡ record { rows = broker_rows inventory.now; faults = []; count = 0 }) }
    {
        Ok(Table {
            slots: Slots::load(alloc, inventory)?,
            faults: Faults::new(alloc),
            room: Room::new(),
        })
    }

    /// Deletes each row that has ended at `t`, with all under it. It takes no memory.
    pub fn sweep(&mut self, t: Moment)
        ensures { self.new ≡ record self.old { rows = swept t self.old.rows } }
    {
        self.slots.sweep(t);
    }

    /// Whether a row of that name is listed.
    pub fn alive(&self, name: &[u8]) -> bool
        ensures { result ≡ is_some (row_named self.now.rows name.now) }
    {
        place_named(self.slots.list(), name).is_some()
    }

    /// The end of the row of that name, `None` where none is listed.
    pub fn end_of(&self, name: &[u8]) -> Option<u64>
        ensures { result ≡ option_map (λ r. r.end) (row_named self.now.rows name.now) }
    {
        end_named(self.slots.list(), name)
    }

    /// Gives the renewal request with that number, counted from 1, a fault, which is used once.
    ///
    /// `BadNumber`: the number is 0, or that of a request counted already. `Twice`: it has a fault.
    pub fn set_fault(&mut self, number: u64, fault: Fault) -> Result<(), SetFault>
        ensures taken { OnOk result (self.new ≡ record self.old { faults = self.old.faults ++ record { number = number; fault = fault } ∷ [] }) }
        ensures refused { IfSome (fault_refusal self.old.faults self.old.count number) (λ fault. result ≡ Err fault) }
        ensures memory { fault_refusal self.old.faults self.old.count number ≡ None → IsOkUnless result SetFault.OutOfMemory }
        ensures unchanged { OnErr result (self.new ≡ self.old) }
    {
        self.faults.set(number, fault)
    }

    /// Serves a request at `t`: sweeps, then takes the first case of the Broker step that applies. A renewal request is
    /// counted, and its fault is used.
    ///
    /// `OutOfMemory`, the only error: the table is as after `sweep`, and the request is not counted.
    #[tactic(auto, unfolding(broker_rule::specs::Step::broker_step))]
    pub fn serve(&mut self, t: Moment, request: &Request) -> Result<Served, ServeFault>
        ensures says { IfOk result (λ served. SaysAnswer t (broker_step self.old t request.now).answer served) }
        ensures after { OnOk result (self.new ≡ (broker_step self.old t request.now).table) }
        ensures unserved { OnErr result (self.new ≡ after_sweep self.old t) }
    {
        self.sweep(t);
        Ok(self.answer(t, request)?)
    }

    /// Reads one request of at most 1 MiB, serves it at `t`, and writes the reply, if there is one. A request that cannot
    /// be read is refused with status 400, and is not counted; one that ends too soon gets no reply.
    ///
    /// `ReadFailed`: a read failed before the bytes held a whole request; the table is as it was, and nothing was written.
    /// `WriteFailed`: a write failed; the table is as serving the request has left it, and no more than a front of the reply
    /// went out. `OutOfMemory`: where the message was not read or is refused, the table is as it was; where it is a request,
    /// as after `sweep`; where the reply was made and not sent whole, as for `WriteFailed`.
    pub fn serve_stream<S: Source + Sink>(
        &mut self,
        t: Moment,
        stream: &mut S,
    ) -> Result<(), StreamFault>
        ensures streamed { OnOk result (IsStreamed (⟦<S as Watched>⟧.change stream.old stream.new) self.old t self.new) }
        ensures left { IfErr result (λ fault. FaultLeaves (⟦<S as Watched>⟧.change stream.old stream.new) self.old t fault self.new) }
        ensures reads { MakesAtMost MOST_READS (S.seen stream.old).input (S.seen stream.new).input }
        ensures count { CountsStream result (S.seen stream.old).failed_calls (S.seen stream.new).failed_calls }
        ensures unread { IsErrOf result StreamFault.ReadFailed → HandedNoRequest MOST_MESSAGE (S.seen stream.old).input (S.seen stream.new).input }
        ensures unwritten { IsErrOf result StreamFault.ReadFailed → (S.seen stream.new).output ≡ (S.seen stream.old).output }
    {
        let alloc = self.slots.allocator();
        let message = self.read_request(alloc, stream);
        let served = self.handle(t, message)?;
        send(alloc, stream, &served)
    }

    /// Reads one request of at most 1 MiB into the table's room.
    fn read_request<S: Source>(
        &mut self,
        alloc: Global,
        stream: &mut S,
    ) -> Result<Request, HttpFault>
        ensures kept { self.new ≡ self.old }
        ensures answer { SettlesRequest MOST_MESSAGE (S.seen stream.old).input (S.seen stream.new).input result }
        ensures reads { MakesAtMost MOST_READS (S.seen stream.old).input (S.seen stream.new).input }
        ensures output { (S.seen stream.new).output ≡ (S.seen stream.old).output }
        ensures count { CountsMessage result (S.seen stream.old).failed_calls (S.seen stream.new).failed_calls }
        ensures prompt { IsErrOf result HttpFault.ReadFailed → HandedNoRequest MOST_MESSAGE (S.seen stream.old).input (S.seen stream.new).input }
    {
        self.room.read_request(alloc, stream, MOST_MESSAGE)
    }

    /// Serves a request that was read, and refuses one that was not.
    fn handle(
        &mut self,
        t: Moment,
        message: Result<Request, HttpFault>,
    ) -> Result<Served, StreamFault>
        ensures handled { IfOk result (λ served. Handles self.old t message self.new served) }
        ensures failed { IfErr result (λ fault. StreamFails self.old t message fault self.new) }
    {
        match message {
            Ok(request) => Ok(self.serve(t, &request)?),
            Err(HttpFault::Truncated) => Ok(Served::Dropped),
            Err(HttpFault::ReadFailed) => Err(StreamFault::ReadFailed),
            Err(HttpFault::OutOfMemory) => Err(StreamFault::OutOfMemory),
            Err(
                HttpFault::BadHead
                | HttpFault::BadLength
                | HttpFault::BadChunk
                | HttpFault::TooLong
                | HttpFault::TwoLengths,
            ) => Ok(refuse(self.slots.allocator(), Refusal::BadRequest)?),
        }
    }
}
