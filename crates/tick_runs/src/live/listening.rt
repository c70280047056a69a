//! Event lines as they come, heard one after another.
ghost use Rattle.std.specs.Prelude.{◌≡◌, IsTrue};
ghost use Rattle.program_lines.specs.Hearing.{EndsBetweenLines};
ghost use Rattle.tick_runs.specs.Hearing.{IsBetweenEvents};
ghost use Rattle.tick_runs.specs.Listening as listening;
ghost use Rattle.tick_runs.specs.Listening.{ListensToEvents};
ghost use Rattle.tick_runs.specs.Stops.{both};
ghost use Rattle.tick_runs.specs.Closed.{World};
ghost use Rattle.tick_runs.specs.StopsAfter.{events_stop_after};

use crate::agent::KeeperAgent;
use crate::live::hearing::hear;
use base_device::{Sink, Source, Watched};
use program_lines::{Hearer, InputLimits, heard_in};
use program_report::Stop;
use std::alloc::Global;
use vault_exchange::Exchange;

/// The most bytes of all event lines of a run.
pub const MOST_EVENTS: usize = 1_048_576;

/// The most reads of event lines of a run.
pub const MOST_EVENT_READS: u64 = 65_536;

impl<E: Exchange> Hearer<E> for KeeperAgent {
    ghost Key = { listening.Asked };

    ghost State = { World };

    ghost key = { λ agent exchange. record { port = E.host_port exchange; credentials = agent.credentials } };

    ghost state = { λ agent exchange. both agent.keeper (E.behind exchange) };

    ghost hearing = { λ asked. listening.hearing_of_events asked.port asked.credentials };

    ghost is_ready = { λ agent exchange out. IsBetweenEvents agent.keeper × IsTrue out.output.is_flushed };

    /// Its requests may take as long as those of the first line.
    fn hear<W: Sink>(
        &mut self,
        alloc: Global,
        neighbours: &mut E,
        line: &[u8],
        number: u64,
        out: &mut W,
    ) -> Result<(), Stop> {
        let Some(heard) = heard_in(self.forest(), line) else {
            return Err(Stop::Line(number));
        };
        neighbours.begin_line();
        hear(alloc, self, neighbours, heard, out)
    }

    ghost stops_after = { λ asked. events_stop_after asked.port asked.credentials };
}

/// Hears event lines until they end, in at most 65,536 reads: each line is answered, and its lines written and flushed, before
/// `events` is read again.
///
/// `Ok`: the events have ended, after a line feed if there are any. `Line`: the line of that number is no event line, or is
/// longer than 256 bytes with its line feed, or has none; the lines before it were heard. `Read`: a read failed, or there are
/// more than 1 MiB of events, or 65,536 reads did not come to their end; the whole lines before were heard. `TooLong`: the plan
/// with the new need of a line would be too long. `Write`: `out` failed. `Memory`.
pub(crate) fn listen<R: Source, E: Exchange, W: Sink>(
    alloc: Global,
    agent: &mut KeeperAgent,
    events: &mut R,
    exchange: &mut E,
    out: &mut W,
) -> Result<(), Stop>
    requires ready { IsBetweenEvents agent.old.keeper }
    requires flushed { IsTrue (W.seen out.old).output.is_flushed }
    ensures listens { ListensToEvents (E.host_port exchange.old) agent.old.credentials (both agent.old.keeper (E.behind exchange.old)) result (both agent.new.keeper (E.behind exchange.new)) (⟦<R as Watched>⟧.change events.old events.new) (⟦<W as Watched>⟧.change out.old out.new) }
    ensures flushed { EndsBetweenLines result → IsTrue (W.seen out.new).output.is_flushed }
    ensures output { (R.seen events.new).output ≡ (R.seen events.old).output }
{
    let limits = InputLimits {
        bytes: Some(MOST_EVENTS),
        reads: MOST_EVENT_READS,
    };
    program_lines::listen(alloc, agent, exchange, limits, events, out)
}
