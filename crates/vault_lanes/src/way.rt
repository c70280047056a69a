//! A request that is on its way over a connection, or over.
ghost use Rattle.std.specs.Prelude.{◌≡◌, ◌<◌, None, OnErr, OnOk, length};
ghost use Rattle.vault_lanes.specs.code.Ways.{DeadlineIsAhead, WayHasRoom, WayHolds, WayMoves, WayWants, answer_of_way, is_way_over, sooner};

use crate::lane::Lane;
use crate::line::Line;
use crate::loss::Loss;
use crate::seats::Standing;
use std::alloc::{AllocError, Global};
use vault_http::DatedReply;

/// The longest wait while a connection has to be tried again and again, in milliseconds.
const RESTLESS: u64 = 20;

/// A request on its way, or what came of it.
#[derive(Drop)]
pub(crate) enum Way<L> {
    Out(Lane<L>),
    Over(Result<DatedReply, Loss>),
}

impl<L: Drop> Standing for Way<L> {
    ghost comes = { λ _. None };

    ghost there = { λ _ way. is_way_over way };

    ghost said = { λ way. answer_of_way way };

    fn is_there(&self, _moment: u64) -> bool {
        self.is_over()
    }

    fn into_answer(self) -> Option<Result<DatedReply, Loss>> {
        match self {
            Way::Out(_) => None,
            Way::Over(answer) => Some(answer),
        }
    }
}

impl<L> Way<L> {
    /// Whether it is over.
    pub(crate) fn is_over(&self) -> bool
        ensures { result ≡ is_way_over self.now }
    {
        match self {
            Way::Out(_) => false,
            Way::Over(_) => true,
        }
    }
}

impl<L: Line + Drop> Way<L> {
    /// The moment by which it has to be looked at again, and no later than that moment.
    pub(crate) fn sooner(&self, time: u64, moment: u64) -> u64
        ensures { result ≡ sooner L.restless time moment self.now }
    {
        match self {
            Way::Out(lane) if lane.line.is_restless() => moment
                .min(lane.deadline())
                .min(time.saturating_add(RESTLESS)),
            Way::Out(lane) => moment.min(lane.deadline()),
            Way::Over(_) => moment,
        }
    }

    /// Goes as far as it can at this moment.
    pub(crate) fn go_on(
        &mut self,
        alloc: Global,
        room: &mut [u8],
        now: u64,
    ) -> Result<(), AllocError>
        requires room { 0 < length room.old }
        ensures room { length room.new ≡ length room.old }
        ensures moves { OnOk result (WayMoves L.written L.remaining L.failures L.reason now self.old self.new) }
        ensures wants { OnErr result (WayWants L.written L.remaining L.failures self.old self.new) }
        ensures holds { OnErr result (WayHasRoom (length room.old) self.old → WayHolds self.new) }
        ensures ahead { OnOk result (DeadlineIsAhead now self.new) }
    {
        if let Way::Out(lane) = self {
            if let Some(answer) = lane.go_on(alloc, room, now)? {
                *self = Way::Over(answer);
            }
        }
        Ok(())
    }
}
