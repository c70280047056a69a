ghost use Rattle.minibroker.specs.Serving.{IsNoneHanded};

use crate::connections::{Connections, Handed};
use crate::serving::serve_all;
use crate::words::BrokerWords;
use base_device::{Counted, Sink, Source};
use broker_table::Table;
use program_report::{Stop, tell};
use std::net::{IpAddr, Ipv4Addr, Net, OpenListener, OpenStream, SocketAddr, TcpListener};
use std::os::unix::net::{UnixListener, UnixStream};
use std::rt::Files;
use std::time::Duration;
use std::{fs, io};

/// The connections to a port, each with time-outs.
#[derive(Drop)]
struct Ports<R: Net> {
    listener: R::Listener,
    patience: Duration,
}

impl<R: Net> Connections for Ports<R> {
    type Stream = Counted<R::Stream>;

    fn accept(&mut self) -> Result<Handed<Counted<R::Stream>>, Stop> {
        let (stream, _) = self.listener.accept().map_err(|error| stop_of(&error))?;
        let patience = Some(self.patience);
        let has_time = stream.set_read_timeout(patience).is_ok()
            && stream.set_write_timeout(patience).is_ok();
        Ok(Handed {
            stream: Counted::new(stream),
            has_time,
        })
    }
}

/// The connections to a UNIX socket, each with time-outs.
#[derive(Drop)]
struct Paths<'a> {
    listener: &'a UnixListener,
    patience: Duration,
}

impl<'a> Connections for Paths<'a> {
    type Stream = Counted<UnixStream>;

    fn accept(&mut self) -> Result<Handed<Counted<UnixStream>>, Stop> {
        let (stream, _) = self.listener.accept().map_err(|error| stop_of(&error))?;
        let patience = Some(self.patience);
        let has_time = stream.set_read_timeout(patience).is_ok()
            && stream.set_write_timeout(patience).is_ok();
        Ok(Handed {
            stream: Counted::new(stream),
            has_time,
        })
    }
}

/// Serves the connections to a port of 127.0.0.1, one after the other. Of port 0 a line tells which one the system chose.
pub fn serve_port<R: AllocGlobal + Net, S: Source, E: Sink>(
    rt: &R,
    port: u16,
    command: &BrokerWords<'_>,
    table: &mut Table,
    lines: &mut S,
    errors: &mut E,
) -> Result<(), Stop> {
    let here = SocketAddr::new(IpAddr::V4(Ipv4Addr::LOCALHOST), port);
    let listener = TcpListener::bind(rt, here).map_err(|error| stop_of(&error))?;
    if port == 0 {
        let chosen = listener
            .local_addr()
            .map_err(|error| stop_of(&error))?
            .port();
        let line = format!(in rt.alloc(); "listening 127.0.0.1:{chosen}\n")?;
        tell(errors, line.as_bytes());
    }
    let mut ports: Ports<R> = Ports {
        listener,
        patience: Duration::from_secs(command.patience),
    };
    serve_all(
        rt.alloc(),
        &mut ports,
        command.count,
        table,
        &command.moments,
        lines,
    )
}

/// Serves the connections to a UNIX socket, one after the other. Its file is made at the start and removed at the end.
pub fn serve_path<R: AllocGlobal + Net + Files, S: Source>(
    rt: &R,
    path: &str,
    command: &BrokerWords<'_>,
    table: &mut Table,
    lines: &mut S,
) -> Result<(), Stop> {
    let listener = UnixListener::bind(rt, path).map_err(|error| stop_of(&error))?;
    let mut paths = Paths {
        listener: &listener,
        patience: Duration::from_secs(command.patience),
    };
    let answer = serve_all(
        rt.alloc(),
        &mut paths,
        command.count,
        table,
        &command.moments,
        lines,
    );
    let _ = fs::remove_file(rt, path);
    answer
}

fn stop_of(error: &io::Error) -> Stop
    ensures { IsNoneHanded result }
{
    if error.kind() == io::ErrorKind::OutOfMemory {
        Stop::Memory
    } else {
        Stop::Read
    }
}
