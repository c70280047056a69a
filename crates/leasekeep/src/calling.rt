//! A command of a running agent: it is sent over the agent's control socket.
use base_device::{Counted, Sink};
use program_calls::{AgentCall, Ended, connect, follow, request_for, talk, tell_unreached};
use program_commands::Called;
use program_report::{PROGRAM, Stop};
use std::alloc::{AllocError, Global};
use std::env::{self, VarError};
use std::fs::{self, File};
use std::io::{self, Read};
use std::net::Net;
use std::rt::{Clock, Env, Files};

/// Where a service of the system has its sockets.
const SYSTEM: &str = "/run/leasekeep";

/// Asks it, and shows the answer.
pub fn call<R, I, E>(rt: &R, called: &Called<'_>, input: I, errors: &mut E) -> Ended
where
    R: Env + Files<File = File> + AllocGlobal + Print + Net + Clock,
    I: Read + Drop,
    E: Sink,
{
    let alloc = rt.alloc();
    let Ok(socket) = socket(rt, called.control) else {
        let _exit = Stop::Memory.report(PROGRAM, errors);
        return Ended::Memory;
    };
    let call = AgentCall {
        program: PROGRAM,
        ask: called.ask,
        socket: socket.as_str(),
    };
    let request = match request_for(alloc, &call, &mut Counted::new(input), errors) {
        Ok(request) => request,
        Err(ended) => return ended,
    };
    let _held = [null(rt), null(rt), null(rt)];
    let mut line = match connect(rt, &call) {
        Ok(line) => line,
        Err(why) => return tell_unreached(&call, why, errors),
    };
    let (request, out) = (request.list(), &mut Counted::new(io::writer(rt)));
    if call.ask.is_follow() {
        follow(alloc, &call, request, &mut line, out, errors)
    } else {
        talk(alloc, &call, request, &mut line, out, errors)
    }
}

/// A file that takes the number of a standard stream which is closed: else the connection would, and what is shown or told would be
/// sent to the agent.
fn null<R: Files<File = File>>(rt: &R) -> Option<File> {
    fs::open(rt, "/dev/null").ok()
}

/// The path of the control socket: the one that is given, else the one in the first folder that the service manager names, else that
/// of the user. Who is in a service is never led to another one's agent. The only error is out of memory.
fn socket<R: Env + Files + AllocGlobal>(rt: &R, given: Option<&str>) -> Result<String, AllocError> {
    let alloc = rt.alloc();
    if let Some(path) = given {
        return String::from_str(alloc, path);
    }
    if let Some(folders) = variable(rt, "RUNTIME_DIRECTORY")? {
        return in_folder(alloc, first(folders.as_str()));
    }
    socket_of_the_user(rt)
}

/// The socket in the user's own folder, or that of the system where the first is not there and the second is.
fn socket_of_the_user<R: Env + Files + AllocGlobal>(rt: &R) -> Result<String, AllocError> {
    let alloc = rt.alloc();
    let of_the_system = in_folder(alloc, SYSTEM)?;
    let Some(folder) = variable(rt, "XDG_RUNTIME_DIR")? else {
        return Ok(of_the_system);
    };
    let own = format!(in alloc; "{folder}/leasekeep/control.sock")?;
    if fs::metadata(rt, own.as_str()).is_err() && fs::metadata(rt, of_the_system.as_str()).is_ok() {
        return Ok(of_the_system);
    }
    Ok(own)
}

fn in_folder(alloc: Global, folder: &str) -> Result<String, AllocError> {
    format!(in alloc; "{folder}/control.sock")
}

/// The first of these folders, which have a colon between them.
fn first(folders: &str) -> &str {
    match folders.find(':') {
        None => folders,
        Some(end) => &folders[..end],
    }
}

/// A variable of the environment, if it is there and says something.
fn variable<R: Env + AllocGlobal>(rt: &R, name: &str) -> Result<Option<String>, AllocError> {
    match env::var(rt, name) {
        Ok(value) if !value.is_empty() => Ok(Some(value)),
        Err(VarError::OutOfMemory) => Err(AllocError),
        _ => Ok(None),
    }
}
