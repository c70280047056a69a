//! Lanes over connections, whatever these are.
ghost use Rattle.std.specs.Prelude.{◌≡◌, ◌++◌, ◌∷◌, ◌*◌, ◌-◌, ◌<◌, ◌≤◌, ◌⊎◌, [], None, Some, Bool, IfOk, IfSome, IsTrue, OnErr, OnOk, false, length, min, max, vec_len};
ghost use Rattle.std.specs.List.{list_any};
ghost use Rattle.base_device.specs.declared.limits.TheConstants.{MOST_ROOM};
ghost use Rattle.vault_lanes.specs.Seats.{outs};
ghost use Rattle.vault_lanes.specs.code.Ways.{AreAhead, GoOnUpTo, HasBegun, Move, WaysAreCalled, is_way_over, soonest, soonest_or_now};
ghost use Rattle.vault_http.specs.RoundTripRequest.{IsWritable};
ghost use Rattle.vault_http.specs.Written.{request_text};

use crate::allowance::Allowance;
use crate::lane::Lane;
use crate::lanes::{Answered, Ask, Lanes, MOST_WIDTH, free_of};
use crate::line::{Line, Wires};
use crate::seats::{Seat, put, rename, take_out};
use crate::way::Way;
use base_device::{MOST_ROOM, zeros};
use base_moment::Moment;
use std::alloc::{AllocError, Global};
use vault_http::text_of_request;

/// Lanes over the connections that `wires` makes.
#[derive(Drop)]
pub struct LanesOver<W: Wires> {
    wires: W,
    seconds: u32,
    width: u32,
    /// By rising index, unless they were renamed.
    out: Vec<Seat<Way<W::Line>>>,
    /// What reads are offered, once it is made.
    room: Vec<u8>,
}

impl<W: Wires> LanesOver<W> {
    /// So many lanes, at most 32 and at least one, with time-outs of so many seconds. Nothing is out. It takes no memory.
    pub fn new(alloc: Global, wires: W, seconds: u32, width: u32) -> LanesOver<W>
        ensures none { ⟦<LanesOver<W> as Lanes>⟧.out result ≡ [] }
        ensures width { ⟦<LanesOver<W> as Lanes>⟧.width result ≡ max 1 (min width 32) }
        ensures seconds { ⟦<LanesOver<W> as Lanes>⟧.seconds result ≡ seconds }
        ensures port { ⟦<LanesOver<W> as Lanes>⟧.host_port result ≡ W.host_port wires }
    {
        LanesOver {
            wires,
            seconds,
            width: width.clamp(1, MOST_WIDTH),
            out: Vec::new(alloc),
            room: Vec::new(alloc),
        }
    }

    /// Each goes on at `now`.
    fn try_all(&mut self, alloc: Global, now: u64) -> Result<(), AllocError>
        ensures out { outs (λ _. None) self.new.out.items ≡ outs (λ _. None) self.old.out.items }
        ensures ahead { OnOk result (AreAhead now self.new.out.items) }
        ensures moved { OnOk result (Move W.Line.written W.Line.remaining W.Line.failures W.Line.reason now self.old.out.items self.new.out.items) }
        ensures up_to { OnErr result ((self.new.out.items ≡ self.old.out.items) ⊎ GoOnUpTo W.Line.written W.Line.remaining W.Line.failures W.Line.reason now self.old.out.items self.new.out.items) }
        ensures seconds { self.new.seconds ≡ self.old.seconds }
        ensures width { self.new.width ≡ self.old.width }
        ensures wires { self.new.wires ≡ self.old.wires }
    {
        make_room(alloc, &mut self.room)?;
        go_on(alloc, &mut self.out, &mut self.room, now)
    }
}

/// Makes the room for reads, if it is not made.
fn make_room(alloc: Global, room: &mut Vec<u8>) -> Result<(), AllocError>
    ensures { OnOk result (vec_len room.new ≡ MOST_ROOM) }
{
    if room.len() != MOST_ROOM {
        *room = zeros(alloc, MOST_ROOM)?;
    }
    Ok(())
}

/// Makes a connection for a request, and begins to write it there.
fn begin<W: Wires>(
    alloc: Global,
    wires: &mut W,
    room: &mut [u8],
    allowance: Allowance,
    ask: &Ask,
) -> Result<Seat<Way<W::Line>>, AllocError>
    requires room { 0 < length room.old }
    requires writable { IsWritable ask.now.request }
    ensures index { IfOk result (λ seat. seat.index ≡ ask.now.index) }
    ensures begins { IfOk result (λ seat. HasBegun W.Line.written W.Line.remaining W.Line.failures W.Line.reason (request_text ask.now.request) allowance seat.standing) }
    ensures room { length room.new ≡ length room.old }
    ensures dialled { IfSome (W.dialled wires.old) (λ indices. OnOk result (W.dialled wires.new ≡ Some (indices ++ ask.now.index ∷ []))) }
    ensures port { W.host_port wires.new ≡ W.host_port wires.old }
{
    let text = text_of_request(alloc, &ask.request)?;
    let mut piece = Vec::new(alloc);
    piece.reserve(room.len())?;
    let line = wires.dial(ask.index);
    let mut standing = Way::Out(Lane::new(alloc, line, text, piece, allowance));
    // Where memory is wanting to judge what has come back, that is held: the request was sent, and is not sent again.
    let _ = standing.go_on(alloc, room, allowance.asked);
    Ok(Seat {
        index: ask.index,
        standing,
    })
}

/// Whether an answer has come.
fn has_answer<L>(out: &[Seat<Way<L>>]) -> bool
    ensures { result ≡ list_any (λ seat. is_way_over seat.standing) out.now }
{
    out.iter().any(|seat| seat.standing.is_over())
}

/// The moment by which the first of them has to be looked at again, and no later than that moment.
fn soonest<L: Line + Drop>(out: &[Seat<Way<L>>], time: u64, moment: u64) -> u64
    ensures { result ≡ soonest L.restless time moment out.now }
{
    let mut first = moment;
    for seat in out {
        first = seat.standing.sooner(time, first);
    }
    first
}

/// The moment by which they have to be looked at again, and no later than `by`.
fn due<L: Line + Drop>(out: &[Seat<Way<L>>], now: u64, by: u64) -> u64
    ensures due { result ≡ soonest_or_now L.restless now by out.now }
    ensures within { result ≤ by }
{
    if has_answer(out) {
        now.min(by)
    } else {
        soonest(out, now, by)
    }
}

/// Each of them goes on.
fn go_on<L: Line + Drop>(
    alloc: Global,
    out: &mut [Seat<Way<L>>],
    room: &mut [u8],
    now: u64,
) -> Result<(), AllocError>
    requires room { 0 < length room.old }
    ensures room { length room.new ≡ length room.old }
    ensures moves { OnOk result (Move L.written L.remaining L.failures L.reason now out.old out.new) }
    ensures up_to { OnErr result (GoOnUpTo L.written L.remaining L.failures L.reason now out.old out.new) }
    ensures out { outs (λ _. None) out.new ≡ outs (λ _. None) out.old }
{
    for seat in out.iter_mut() {
        seat.standing.go_on(alloc, room, now)?;
    }
    Ok(())
}

impl<W: Wires> Lanes for LanesOver<W> {
    ghost behind = { λ _. None };

    ghost out = { λ lanes. outs (λ _. None) lanes.out.items };

    ghost width = { λ lanes. lanes.width };

    ghost seconds = { λ lanes. lanes.seconds };

    ghost host_port = { λ lanes. W.host_port lanes.wires };

    ghost due_by = { λ now by lanes. soonest_or_now W.Line.restless now by lanes.out.items };

    ghost does = { λ call old new. WaysAreCalled W.Line.written W.Line.remaining W.Line.failures W.Line.reason old.seconds call old.out.items new.out.items };

    fn port(&self) -> u16 {
        self.wires.port()
    }

    fn free(&self) -> u32 {
        free_of(self.width, self.out.len())
    }

    fn send(&mut self, alloc: Global, _t: Moment, now: u64, ask: &Ask) -> Result<(), AllocError> {
        self.out.reserve(1)?;
        make_room(alloc, &mut self.room)?;
        let allowance = Allowance::new(now, ask.patience, self.seconds);
        let seat = begin(alloc, &mut self.wires, &mut self.room, allowance, ask)?;
        put(&mut self.out, seat);
        Ok(())
    }

    fn go_on(&mut self, alloc: Global, now: u64) -> Result<Vec<Answered>, AllocError> {
        self.try_all(alloc, now)?;
        take_out(alloc, &mut self.out, now)
    }

    fn due(&self, now: u64, by: u64) -> u64 {
        due(&self.out, now, by)
    }

    fn rename(&mut self, from: &[u32], to: &[u32]) {
        rename(&mut self.out, from, to);
    }

    fn forget(&mut self) {
        self.out.clear();
    }
}
