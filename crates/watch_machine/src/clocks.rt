ghost use Rattle.std.specs.Prelude.{◌≡◌, ◌≤◌, ◌*◌, ◌+◌, IfSome, IsTrue};
ghost use Rattle.base_moment.specs.declared.moment.TheConstants.{LAST};
ghost use Rattle.plan_forest.specs.declared.forest.TheConstants.{END_MAX};
ghost use Rattle.watch_machine.specs.Clocks.{dated_by, first_clocks, is_ahead, is_behind, is_stepped, of_wall, phase_of, to_broker, to_here, to_wall, unset, walled};
ghost use Rattle.watch_machine.specs.Settling.{at_reading};
ghost use Rattle.watch_machine.specs.Wanted.{ceiling_here, need_here};
ghost use Rattle.watch_machine.specs.code.Bounds.{IsClocks};
ghost use Rattle.watch_machine.specs.code.Lull.{GoesOn};
ghost use Rattle.watch_machine.specs.declared.reading.TheConstants.{READING_MAX};

use crate::reading::{BrokerSeconds, Millis, WallMillis, reading, second};
use base_moment::LAST;
use plan_forest::END_MAX;

/// How the broker's clock goes beside this one: it showed the moment `there` in the second of `here`.
#[derive(Clone, Copy, Debug, PartialEq, Eq)]
pub struct BrokerOffset {
    pub here: Millis,
    pub there: BrokerSeconds,
}

/// How the wall's clock goes beside this one: it showed `there` at `here`.
#[derive(Clone, Copy, Debug, PartialEq, Eq)]
pub struct WallOffset {
    pub here: Millis,
    pub there: WallMillis,
}

/// The clocks. This one never steps, and its milliseconds are in phase with the wall's seconds.
#[derive(Clone, Copy, Debug, PartialEq, Eq)]
pub struct Clocks {
    /// The last reading of this clock.
    pub at: Millis,
    /// The milliseconds, below 1000, that bring a reading in phase.
    pub phase: u32,
    /// The broker's clock beside this one.
    pub broker: BrokerOffset,
    /// The wall's clock beside this one.
    pub wall: WallOffset,
    /// A reply has told the broker's clock.
    pub dated: bool,
}

impl BrokerOffset {
    /// What this clock shows when the broker's shows `there`, in seconds.
    #[tactic(auto, unfolding(crate::specs::Clocks::to_here))]
    pub(crate) fn to_here(self, there: u64) -> u64
        requires offset { self.here ≤ READING_MAX }
        requires there { there ≤ END_MAX }
        ensures { result ≡ to_here self there }
    {
        (there + second(self.here)).saturating_sub(self.there)
    }

    /// What the broker's clock shows when this one shows `here`, in seconds.
    #[tactic(auto, unfolding(crate::specs::Clocks::to_broker))]
    pub(crate) fn to_broker(self, here: u64) -> u64
        requires offset { self.there ≤ LAST }
        requires here { here ≤ 18446744073709551 }
        ensures value { result ≡ to_broker self here }
        ensures within { result ≤ 18446744073709551 + LAST }
    {
        (here + self.there).saturating_sub(second(self.here))
    }
}

impl WallOffset {
    /// What the wall shows at a moment of this clock, in milliseconds.
    #[tactic(auto, unfolding(crate::specs::Clocks::to_wall))]
    fn to_wall(self, at: Millis) -> u64
        requires offset { self.there ≤ READING_MAX }
        requires at { at ≤ READING_MAX }
        ensures value { result ≡ to_wall self at }
        ensures within { result ≤ 2 * READING_MAX }
    {
        (at + self.there).saturating_sub(self.here)
    }

    /// The broker's clock beside this one, if it is the wall's.
    fn as_broker(self) -> BrokerOffset
        ensures value { result ≡ of_wall self }
        ensures within { self.there ≤ READING_MAX → result.there ≤ LAST }
    {
        BrokerOffset {
            here: self.here,
            there: second(self.there),
        }
    }
}

/// The milliseconds that bring a reading of this clock in phase with the wall's seconds.
#[tactic(auto, unfolding(crate::specs::Clocks::phase_of))]
fn phase_of(wall: u64, elapsed: u64) -> u32
    ensures { result ≡ phase_of wall elapsed }
{
    let wall = reading(wall);
    let elapsed = reading(elapsed);
    ((wall % 1000 + (1000 - elapsed % 1000)) % 1000) as u32
}

impl Clocks {
    /// The clocks before the first readings.
    pub(crate) fn unset() -> Clocks
        ensures value { result ≡ unset }
        ensures bounds { IsClocks result }
    {
        Clocks {
            at: 0,
            phase: 0,
            broker: BrokerOffset { here: 0, there: 0 },
            wall: WallOffset { here: 0, there: 0 },
            dated: false,
        }
    }

    /// The clocks at the first readings: the broker's is taken to be the wall's.
    #[tactic(auto, unfolding(crate::specs::Clocks::first_clocks))]
    pub(crate) fn first(wall: u64, elapsed: u64) -> Clocks
        ensures value { result ≡ first_clocks wall elapsed }
        ensures bounds { IsClocks result }
    {
        let phase = phase_of(wall, elapsed);
        let at = reading(elapsed.saturating_add(phase as u64));
        let wall = WallOffset {
            here: at,
            there: reading(wall),
        };
        Clocks {
            at,
            phase,
            broker: wall.as_broker(),
            wall,
            dated: false,
        }
    }

    /// The clocks at a later reading of this one; a reading before the last one is taken as that.
    #[tactic(auto, unfolding(crate::specs::Clocks::moment_at_reading))]
    pub(crate) fn later(self, elapsed: u64) -> Clocks
        requires { IsClocks self }
        ensures value { result ≡ at_reading self elapsed }
        ensures bounds { IsClocks result }
    {
        let at = reading(elapsed.saturating_add(self.phase as u64));
        Clocks {
            at: self.at.max(at),
            ..self
        }
    }

    /// Whether the wall and what it was expected to show have parted by more than two seconds.
    #[tactic(auto, unfolding(crate::specs::Clocks::is_stepped))]
    pub(crate) fn is_stepped(self, wall: WallMillis) -> bool
        requires clocks { IsClocks self }
        requires wall { wall ≤ READING_MAX }
        ensures { result ≡ is_stepped self wall }
    {
        let expected = self.wall.to_wall(self.at);
        expected + 2000 < wall || wall + 2000 < expected
    }

    /// The clocks after the wall's reading. Where it has stepped it is set anew, and so is the broker's that no reply has told.
    #[tactic(auto, unfolding(crate::specs::Clocks::walled))]
    pub(crate) fn walled(self, wall: WallMillis) -> Clocks
        requires clocks { IsClocks self }
        requires wall { wall ≤ READING_MAX }
        ensures value { result ≡ walled self wall }
        ensures bounds { IsClocks result }
    {
        if !self.is_stepped(wall) {
            return self;
        }
        let wall = WallOffset {
            here: self.at,
            there: wall,
        };
        let broker = if self.dated {
            self.broker
        } else {
            wall.as_broker()
        };
        Clocks {
            wall,
            broker,
            ..self
        }
    }

    /// Whether a date is more than two seconds ahead of the broker's clock.
    #[tactic(auto, unfolding(crate::specs::Clocks::is_ahead))]
    pub(crate) fn is_ahead(self, date: BrokerSeconds) -> bool
        requires { IsClocks self }
        ensures { result ≡ is_ahead self date }
    {
        self.broker.to_broker(second(self.at)) + 2 < date
    }

    /// Whether a date is more than three seconds behind what the broker's clock showed when the request went out.
    #[tactic(auto, unfolding(crate::specs::Clocks::is_behind))]
    fn is_behind(self, since: Millis, date: BrokerSeconds) -> bool
        requires clocks { IsClocks self }
        requires date { date ≤ LAST }
        ensures { result ≡ is_behind self since date }
    {
        date + 3 < self.broker.to_broker(second(since))
    }

    /// The clocks after the date of a reply to a request that went out at `since`.
    #[tactic(auto, unfolding(crate::specs::Clocks::dated_by))]
    pub(crate) fn dated_by(self, since: Millis, date: BrokerSeconds) -> Clocks
        requires clocks { IsClocks self }
        requires date { date ≤ LAST }
        ensures value { result ≡ dated_by since self date }
        ensures bounds { IsClocks result }
    {
        let broker = if self.is_ahead(date) || self.is_behind(since, date) {
            BrokerOffset {
                here: self.at,
                there: date,
            }
        } else {
            self.broker
        };
        Clocks {
            broker,
            dated: true,
            ..self
        }
    }

    /// A need on this clock: past only where it is so by the broker's clock and by the wall's. 0 asks for nothing.
    #[tactic(auto, unfolding(crate::specs::Wanted::need_here))]
    pub(crate) fn need_here(self, need: BrokerSeconds) -> u64
        requires clocks { IsClocks self }
        requires need { need ≤ LAST }
        ensures value { result ≡ need_here self need }
        ensures within { result ≤ LAST }
    {
        if need == 0 {
            return 0;
        }
        let broker = self.broker.to_here(need);
        let wall = self.wall.as_broker().to_here(need);
        broker.max(wall).min(LAST)
    }

    /// A ceiling on this clock, by the broker's.
    pub(crate) fn ceiling_here(self, ceiling: Option<BrokerSeconds>) -> Option<u64>
        requires clocks { IsClocks self }
        requires ceiling { IfSome ceiling (λ t. t ≤ END_MAX) }
        ensures value { result ≡ ceiling_here self ceiling }
        ensures within { IfSome result (λ t. t ≤ END_MAX) }
    {
        match ceiling {
            None => None,
            Some(ceiling) => Some(self.broker.to_here(ceiling).min(END_MAX)),
        }
    }
}

/// Whether these are later readings, by which the broker's clock and the wall's go beside this one as before.
pub(crate) fn goes_on(now: Clocks, before: Clocks) -> bool
    ensures { IsTrue result → GoesOn now before }
{
    before.at <= now.at
        && now.broker.here == before.broker.here
        && now.broker.there == before.broker.there
        && now.wall.here == before.wall.here
        && now.wall.there == before.wall.there
}
