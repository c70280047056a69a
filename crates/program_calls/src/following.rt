//! An answer that goes on.
ghost use Rattle.std.specs.Prelude.{◌≡◌, ◌⊎◌, ◌<◌, ◌≤◌, [], OnOk, bytes_eq, codes, length};
ghost use Rattle.std.specs.Io.KnownBytes.{Consumes, IsAtEnd};
ghost use Rattle.base_device.specs.Failures.{CountsMore};
ghost use Rattle.base_device.specs.Whole.{MakesAtMost};
ghost use Rattle.base_device.specs.declared.limits.TheConstants.{MOST_ROOM};
ghost use Rattle.program_calls.specs.Following.{AnswerOpens, CallBegins, CallFollows, PassesOn, PassesOne, TellsHow};

use crate::answering::show;
use crate::call::AgentCall;
use crate::ended::Ended;
use crate::fault::CallFault;
use crate::hearing::{Heard, give, reply_in};
use crate::limits::ANSWER_MAX;
use crate::telling::tell_of_socket;
use base_device::{MOST_ROOM, MoreFault, Sink, Source, Watched, read_all, zeros};
use base_moment::Text;
use program_report::{Stop, send};
use std::alloc::Global;

const OK_LINE: &[u8] = b"ok\n";

/// How an answer begins.
#[derive(Drop)]
pub(crate) enum Begun {
    /// With the line `ok`: the log's lines come after it.
    Lines,
    /// It is another.
    Answer(Heard),
}

/// How following ended.
#[derive(Drop)]
pub(crate) enum Followed {
    /// The agent ended the connection.
    Ended,
    /// A read failed.
    Lost,
    /// The output failed.
    Stopped(Stop),
}

/// Sends the request over a connection, once. Where the answer begins with the line `ok`, what comes after it is shown on `out` as it
/// comes, until the agent ends the connection: the call is `Done` then. Any other answer is shown as [`talk`](crate::talk) shows it.
///
/// `Refused`: the agent refuses, there is no answer, or a read failed. `Device`: `out` failed. `Memory`: memory was refused.
pub fn follow<L: Source + Sink, W: Sink, E: Sink>(
    alloc: Global,
    call: &AgentCall<'_>,
    request: &[u8],
    line: &mut L,
    out: &mut W,
    errors: &mut E,
) -> Ended
    ensures { CallFollows call.now request.now result (⟦<L as Watched>⟧.change line.old line.new) (⟦<W as Watched>⟧.change out.old out.new) (⟦<E as Watched>⟧.change errors.old errors.new) }
{
    let Ok(mut room) = zeros(alloc, MOST_ROOM) else {
        return tell_of_socket(call, None, errors);
    };
    match begin(alloc, request, &mut room, line) {
        Ok(Begun::Lines) => {
            let followed = pass_on(&mut room, line, out);
            tell_how(call, followed, errors)
        }
        Ok(Begun::Answer(heard)) => show(call, &heard, out, errors),
        Err(fault) => tell_of_socket(call, fault.words(), errors),
    }
}

// Sends the request, and reads how the answer begins.
#[tactic(auto, using(crate::proofs::Beginning::unsent_begins))]
fn begin<L: Source + Sink>(
    alloc: Global,
    request: &[u8],
    room: &mut [u8],
    line: &mut L,
) -> Result<Begun, CallFault>
    requires { length room.old ≡ MOST_ROOM }
    ensures room { length room.new ≡ MOST_ROOM }
    ensures begins { CallBegins request.now result (⟦<L as Watched>⟧.change line.old line.new) }
{
    give(request, line)?;
    open(alloc, room, line)
}

// Reads the line `ok`, or all of another answer.
#[tactic(auto, using(crate::proofs::Beginning::lines_open))]
fn open<L: Source + Sink>(alloc: Global, room: &mut [u8], line: &mut L) -> Result<Begun, CallFault>
    requires { length room.old ≡ MOST_ROOM }
    ensures room { length room.new ≡ MOST_ROOM }
    ensures opens { AnswerOpens result (⟦<L as Watched>⟧.change line.old line.new) }
    ensures output { (L.seen line.new).output ≡ (L.seen line.old).output }
{
    let mut front = Vec::new(alloc);
    read_front(line, room, &mut front)?;
    if is_ok_line(front.as_slice()) {
        return Ok(Begun::Lines);
    }
    let rest = read_all(alloc, line, ANSWER_MAX)?;
    front.extend_from_slice(rest.list())?;
    Ok(Begun::Answer(reply_in(alloc, Text::from_vec(front))?))
}

// Whether it is the line `ok`.
fn is_ok_line(front: &[u8]) -> bool
    ensures { result ≡ bytes_eq front.now (codes "ok\n") }
{
    front == OK_LINE
}

// Reads the first three bytes, or all where there are fewer.
fn read_front<L: Source>(
    line: &mut L,
    room: &mut [u8],
    front: &mut Vec<u8>,
) -> Result<(), MoreFault>
    requires room { length room.old ≡ MOST_ROOM }
    requires none { front.old.items ≡ [] }
    ensures room { length room.new ≡ MOST_ROOM }
    ensures read { OnOk result (Consumes (L.seen line.old).input.remaining (L.seen line.new).input.remaining front.new.items) }
    ensures short { OnOk result (length front.new.items ≤ 3) }
    ensures end { OnOk result ((length front.new.items ≡ 3) ⊎ IsAtEnd (L.seen line.new).input.remaining) }
    ensures few { MakesAtMost 3 (L.seen line.old).input (L.seen line.new).input }
    ensures count { CountsMore result (L.seen line.old).failed_calls (L.seen line.new).failed_calls }
    ensures output { (L.seen line.new).output ≡ (L.seen line.old).output }
{
    for _ in 0..3u32 {
        if front.len() > 2 {
            return Ok(());
        }
        let n = line.read_some(&mut room[..3 - front.len()])?;
        if n == 0 {
            return Ok(());
        }
        front.extend_from_slice(&room[..n])?;
    }
    Ok(())
}

// Shows what comes as it comes.
fn pass_on<L: Source, W: Sink>(room: &mut [u8], line: &mut L, out: &mut W) -> Followed
    requires { length room.old ≡ MOST_ROOM }
    ensures { PassesOn result (⟦<L as Watched>⟧.change line.old line.new) (⟦<W as Watched>⟧.change out.old out.new) }
{
    for _ in 0..u64::MAX {
        match pass_one(room, line, out) {
            None => {}
            Some(followed) => return followed,
        }
    }
    Followed::Lost
}

// Shows what one read gives, where it gives something.
fn pass_one<L: Source, W: Sink>(room: &mut [u8], line: &mut L, out: &mut W) -> Option<Followed>
    requires { length room.old ≡ MOST_ROOM }
    ensures room { length room.new ≡ MOST_ROOM }
    ensures one { PassesOne result (⟦<L as Watched>⟧.change line.old line.new) (⟦<W as Watched>⟧.change out.old out.new) }
{
    match line.read_some(room) {
        Err(_) => Some(Followed::Lost),
        Ok(0) => Some(Followed::Ended),
        Ok(n) => match send(out, &room[..n]) {
            Ok(()) => None,
            Err(stop) => Some(Followed::Stopped(stop)),
        },
    }
}

// Tells how it ended, where there is something to tell.
fn tell_how<E: Sink>(call: &AgentCall<'_>, followed: Followed, errors: &mut E) -> Ended
    ensures { TellsHow call.now followed result (⟦<E as Watched>⟧.change errors.old errors.new) }
{
    match followed {
        Followed::Ended => Ended::Done,
        Followed::Lost => tell_of_socket(call, CallFault::NoAnswer.words(), errors),
        Followed::Stopped(stop) => {
            let _exit = stop.report(call.program, errors);
            Ended::of(&stop)
        }
    }
}
