ghost use Rattle.std.specs.Prelude.{◌≡◌};
ghost use Rattle.minibroker.specs.Serving.{ServesAll, ServesOne, TellsServed, stop_of_line};

use crate::connections::{Connections, Handed};
use base_device::{Sink, Source, Watched};
use broker_table::{LineFault, Moments, StreamFault, Table, next_moment};
use program_report::{Stop, send};
use std::alloc::Global;

/// Serves so many connections, one after another as they come, each as [`serve_one`] does. An error ends it, after those that
/// were served before.
pub fn serve_all<C: Connections, S: Source>(
    alloc: Global,
    connections: &mut C,
    count: u32,
    table: &mut Table,
    moments: &Moments,
    lines: &mut S,
) -> Result<(), Stop>
    ensures { ServesAll count moments.now (record { lines = S.seen lines.old; table = table.old }) result (record { lines = S.seen lines.new; table = table.new }) (C.handed connections.old) (C.handed connections.new) }
{
    for _ in 0..count {
        let Handed {
            mut stream,
            has_time,
        } = connections.accept()?;
        serve_one(alloc, table, *moments, lines, &mut stream, has_time)?;
    }
    Ok(())
}

/// Serves one connection at its moment: that of all, or that of the next line. A connection whose reads or writes fail counts as
/// served, and so does one without time-outs, which is not read.
///
/// `Read`: there is no moment for it, and nothing is done. `Memory`.
pub fn serve_one<S: Source, C: Source + Sink>(
    alloc: Global,
    table: &mut Table,
    moments: Moments,
    lines: &mut S,
    stream: &mut C,
    has_time: bool,
) -> Result<(), Stop>
    ensures { ServesOne moments (S.seen lines.old) (S.seen lines.new) has_time (⟦<C as Watched>⟧.change stream.old stream.new) table.old result table.new }
{
    let moment = match next_moment(alloc, moments, lines) {
        Ok(moment) => moment,
        Err(fault) => return Err(line_stop(fault)),
    };
    if !has_time {
        return Ok(());
    }
    match table.serve_stream(moment, stream) {
        Ok(()) | Err(StreamFault::ReadFailed | StreamFault::WriteFailed) => Ok(()),
        Err(StreamFault::OutOfMemory) => Err(Stop::Memory),
    }
}

fn line_stop(fault: LineFault) -> Stop
    ensures { result ≡ stop_of_line fault }
{
    match fault {
        LineFault::ReadFailed | LineFault::NoMoment => Stop::Read,
        LineFault::OutOfMemory => Stop::Memory,
    }
}

/// Says how many connections were served. `Write`: `out` failed. `Memory`.
pub fn tell_served<W: Sink>(alloc: Global, count: u32, out: &mut W) -> Result<(), Stop>
    ensures { TellsServed count result (⟦<W as Watched>⟧.change out.old out.new) }
{
    let line = format!(in alloc; "served {count}\n")?;
    send(out, line.as_bytes())
}
