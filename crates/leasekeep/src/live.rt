use base_device::{Place, Sink, Source, Streams};
use program_commands::Live;
use program_report::{Exit, PROGRAM};
use program_words::SystemFiles;
use std::net::Net;
use std::rt::Files;
use std::time::Duration;
use tick_commands::keep_alive;
use vault_exchange::{Exchange, TcpExchange, UnixExchange};

/// Runs the agent: it takes event lines from these streams, and answers them there.
pub fn keep<R: Files + AllocGlobal + Net, I: Source, W: Sink, E: Sink>(
    rt: &R,
    live: &Live<'_>,
    streams: &mut Streams<I, W, E>,
) -> Exit {
    let longest = Duration::from_secs(live.patience);
    match live.place {
        Place::Port(port) => {
            let mut exchange = TcpExchange::patient(rt, port, longest);
            keep_over(rt, live, &mut exchange, streams)
        }
        Place::Path(path) => {
            let mut exchange = UnixExchange::patient(rt, path, longest);
            keep_over(rt, live, &mut exchange, streams)
        }
    }
}

fn keep_over<R: Files + AllocGlobal, X: Exchange, I: Source, W: Sink, E: Sink>(
    rt: &R,
    live: &Live<'_>,
    exchange: &mut X,
    streams: &mut Streams<I, W, E>,
) -> Exit {
    let mut files = SystemFiles::new(rt);
    let exit = keep_alive(
        rt.alloc(),
        live.file,
        live.start,
        &mut files,
        exchange,
        streams,
    );
    files.advise(PROGRAM, exit, live.file, &mut streams.errors);
    exit
}
