ghost use Rattle.std.specs.Prelude.{◌≡◌, ◌++◌, ◌∷◌, [], None, Some, IfOk, OnErr, OnOk, max, min, Ok, Err};
ghost use Rattle.broker_lanes.specs.InMemory.{AnswersFor};
ghost use Rattle.vault_exchange.specs.Requests.{IsShortRequest};
ghost use Rattle.base_device.specs.Moments.{earlier};
ghost use Rattle.vault_lanes.specs.Out.{first_at};
ghost use Rattle.vault_lanes.specs.Serving.{ComesOfRequest, IsTableLeft, RequestIsServed, lane_fault_at, later};
ghost use Rattle.vault_lanes.specs.Seats.{outs};
ghost use Rattle.vault_http.specs.RoundTripRequest.{IsWritable};

use base_moment::{Moment, Text};
use broker_memory::MemoryExchange;
use broker_table::Table;
use std::alloc::{AllocError, Global};
use std::marker::Model;
use vault_exchange::{Exchange, ExchangeFault};
use vault_http::{DatedReply, Reply, Request};
use vault_lanes::{
    Allowance, Answered, Ask, Coming, ConnectReason, LaneFault, Lanes, Loss, MOST_WIDTH,
    NumberedLaneFault, Seat, free_of, loss_of, put, rename, take_out,
};

/// Lanes with a broker's table in memory, with faults by number.
#[derive(Debug, Drop)]
pub struct MemoryLanes {
    exchange: MemoryExchange,
    faults: Vec<NumberedLaneFault>,
    count: u64,
    seconds: u32,
    width: u32,
    /// By rising index, unless they were renamed.
    out: Vec<Seat<Coming>>,
}

impl Model for MemoryLanes {
    ghost use Rattle.std.specs.Prelude.{Some};
    ghost use Rattle.broker_lanes.specs.InMemory.{InMemory};
    ghost use Rattle.vault_lanes.specs.Seats.{outs};

    ghost Value = { InMemory };

    ghost view = { λ l. record { behind = record { table = l.exchange.table; faults = l.faults.items; count = l.count }; out = outs (λ coming. Some coming) l.out.items; width = l.width; seconds = l.seconds } };
}

impl MemoryLanes {
    /// So many lanes, at most 32 and at least one, to a broker with this table, with time-outs of so many seconds. Nothing is
    /// out, and nothing is to go wrong. It takes no memory.
    pub fn new(alloc: Global, table: Table, seconds: u32, width: u32) -> MemoryLanes
        ensures { result ≡ record { behind = record { table = table; faults = []; count = 0 }; out = []; width = max 1 (min width 32); seconds = seconds } }
    {
        MemoryLanes {
            exchange: MemoryExchange::new(alloc, table),
            faults: Vec::new(alloc),
            count: 0,
            seconds,
            width: width.clamp(1, MOST_WIDTH),
            out: Vec::new(alloc),
        }
    }

    /// Gives the request with that number, counted from 1, a fault, where none was given to it before. The only error is out of
    /// memory: all is as it was.
    pub fn set_fault(&mut self, number: u64, fault: LaneFault) -> Result<(), AllocError>
        ensures taken { OnOk result (self.new ≡ record self.old { behind = record self.old.behind { faults = self.old.behind.faults ++ record { number = number; fault = fault } ∷ [] } }) }
        ensures unchanged { OnErr result (self.new ≡ self.old) }
    {
        self.faults.reserve(1)?;
        self.faults
            .push_reserved(NumberedLaneFault { number, fault });
        Ok(())
    }

    /// The broker's table.
    pub fn table(&self) -> &Table
        ensures { result.now ≡ self.now.behind.table }
    {
        self.exchange.table()
    }
}

/// Serves a request at `t` that has this fault, and says what comes of it.
fn serve(
    alloc: Global,
    exchange: &mut MemoryExchange,
    t: Moment,
    allowance: &Allowance,
    fault: Option<LaneFault>,
    request: &Request,
) -> Result<Coming, AllocError>
    requires writable { IsWritable request.now }
    requires short { IsShortRequest request.now }
    ensures comes { IfOk result (λ coming. ComesOfRequest fault allowance.now exchange.old.table t request.now coming exchange.new.table) }
    ensures left { OnErr result (IsTableLeft exchange.old.table t request.now exchange.new.table) }
{
    let at = allowance.asked;
    match fault {
        None => {
            let answer = answer(alloc, exchange, t, request)?;
            Ok(Coming { answer, at })
        }
        Some(LaneFault::Refuse) => Ok(lost(Loss::Connect(ConnectReason::Refused), at)),
        Some(LaneFault::Lose) => Ok(lost(Loss::Closed, at)),
        Some(LaneFault::Status(status)) => with_status(alloc, status, at),
        Some(LaneFault::Garble) => {
            let _unread = answer(alloc, exchange, t, request)?;
            Ok(lost(Loss::Reply, at))
        }
        Some(LaneFault::Hang) => {
            let _unsent = answer(alloc, exchange, t, request)?;
            Ok(lost(Loss::Timeout, allowance.first_by()))
        }
        Some(LaneFault::Late(millis)) => {
            let answer = answer(alloc, exchange, t, request)?;
            Ok(later(answer, allowance, millis))
        }
    }
}

/// The broker's answer to a request.
fn answer(
    alloc: Global,
    exchange: &mut MemoryExchange,
    t: Moment,
    request: &Request,
) -> Result<Result<DatedReply, Loss>, AllocError>
    requires writable { IsWritable request.now }
    requires short { IsShortRequest request.now }
    ensures served { IfOk result (λ a. RequestIsServed exchange.old.table t request.now a exchange.new.table) }
    ensures left { OnErr result (IsTableLeft exchange.old.table t request.now exchange.new.table) }
{
    let exchanged = exchange.exchange(alloc, t, request);
    answer_in(exchanged)
}

/// What an exchange gives, as an answer without a date. The only error is that the exchange was out of memory.
fn answer_in(
    exchanged: Result<Reply, ExchangeFault>,
) -> Result<Result<DatedReply, Loss>, AllocError>
    ensures { AnswersFor exchanged result }
{
    match exchanged {
        Ok(reply) => Ok(Ok(DatedReply { reply, date: None })),
        Err(ExchangeFault::OutOfMemory) => Err(AllocError),
        Err(ExchangeFault::Http(fault)) => Ok(Err(loss_of(fault))),
        Err(ExchangeFault::ConnectFailed | ExchangeFault::WriteFailed) => {
            Ok(Err(Loss::Connect(ConnectReason::Other)))
        }
    }
}

/// It is lost at this moment.
fn lost(loss: Loss, at: u64) -> Coming
    ensures { result ≡ record { answer = Err loss; at = at } }
{
    Coming {
        answer: Err(loss),
        at,
    }
}

/// A reply of this status, with no body, at this moment.
fn with_status(alloc: Global, status: u16, at: u64) -> Result<Coming, AllocError>
    ensures { IfOk result (λ coming. coming ≡ record { answer = Ok (record { reply = record { status = status; body = [] }; date = None }); at = at }) }
{
    let body = Text::of(alloc, b"")?;
    let reply = Reply { status, body };
    Ok(Coming {
        answer: Ok(DatedReply { reply, date: None }),
        at,
    })
}

/// An answer that is there so many milliseconds after its asking: too late where the patience is over by then.
fn later(answer: Result<DatedReply, Loss>, allowance: &Allowance, millis: u64) -> Coming
    ensures { result ≡ later answer allowance.now millis }
{
    let at = allowance.asked.saturating_add(millis);
    if at < allowance.first_by() {
        Coming { answer, at }
    } else {
        lost(Loss::Timeout, allowance.first_by())
    }
}

/// The fault of the request with that number: the first that was given to it.
#[tactic(auto, unfolding(vault_lanes::specs::Serving::lane_fault_at))]
fn fault_at(faults: &[NumberedLaneFault], number: u64) -> Option<LaneFault>
    ensures { result ≡ lane_fault_at faults.now number }
{
    match faults.iter().find(|numbered| numbered.number == number) {
        Some(numbered) => Some(numbered.fault),
        None => None,
    }
}

/// The moment at which the first answer is there.
fn first_at(out: &[Seat<Coming>]) -> Option<u64>
    ensures { result ≡ first_at (outs (λ coming. Some coming) out.now) }
{
    let mut first = None;
    let mut at = out.len();
    while at > 0 {
        at -= 1;
        first = Some(earlier(out[at].standing.at, first));
    }
    first
}

/// The earlier of two moments, of which there may be one alone.
fn earlier(n: u64, other: Option<u64>) -> u64
    ensures { result ≡ earlier n other }
{
    match other {
        None => n,
        Some(m) => n.min(m),
    }
}

impl Lanes for MemoryLanes {
    ghost behind = { λ l. Some l.behind };

    ghost out = { λ l. l.out };

    ghost width = { λ l. l.width };

    ghost seconds = { λ l. l.seconds };

    ghost due_by = { λ _ by l. earlier by (first_at l.out) };

    fn port(&self) -> u16 {
        8200
    }

    fn free(&self) -> u32 {
        free_of(self.width, self.out.len())
    }

    fn send(&mut self, alloc: Global, t: Moment, now: u64, ask: &Ask) -> Result<(), AllocError> {
        self.out.reserve(1)?;
        let number = self.count.saturating_add(1);
        let allowance = Allowance::new(now, ask.patience, self.seconds);
        let fault = fault_at(&self.faults, number);
        let standing = serve(
            alloc,
            &mut self.exchange,
            t,
            &allowance,
            fault,
            &ask.request,
        )?;
        self.count = number;
        let index = ask.index;
        put(&mut self.out, Seat { index, standing });
        Ok(())
    }

    fn go_on(&mut self, alloc: Global, now: u64) -> Result<Vec<Answered>, AllocError> {
        take_out(alloc, &mut self.out, now)
    }

    fn due(&self, _now: u64, by: u64) -> u64 {
        earlier(by, first_at(&self.out))
    }

    fn rename(&mut self, from: &[u32], to: &[u32]) {
        rename(&mut self.out, from, to);
    }

    fn forget(&mut self) {
        self.out.clear();
    }
}
