ghost use Rattle.std.specs.Prelude.{◌≡◌, [], length, IfSome, IsErrOf};
ghost use Rattle.std.specs.Io.KnownBytes.{Keeps};
ghost use Rattle.base_device.specs.declared.limits.TheConstants.{MOST_READS, MOST_ROOM};
ghost use Rattle.base_device.specs.Whole.{MakesAtMost};
ghost use Rattle.vault_http.specs.declared.http_fault.HttpFault.TheVariants as faults;
ghost use Rattle.vault_http.specs.Holding.{HandedNone};
ghost use Rattle.vault_http.specs.Known.{IsCurrent, StaysKnown};
ghost use Rattle.vault_http.specs.Reading.{SettlesDated, SettlesFrom, SettlesReply, SettlesRequest, HandedNoDated, HandedNoReply, HandedNoRequest, CountsMessage};

use crate::known::{Known, go_on, look};
use crate::message::Message;
use crate::room::Room;
use crate::verdict::Verdict;
use crate::{DatedReply, HttpFault, Reply, Request, Source};
use base_device::{MOST_READS, read_more};
use std::alloc::Global;

/// Reads one reply of at most `max` bytes, its head included. What stands after it is not looked at. It makes at most 4,096
/// reads, each with room for 65,536 bytes, or for what is left up to one byte past `max` where that is less.
///
/// The answer is given as soon as the bytes settle it, be it the reply or a fault, so a peer that keeps its side open is
/// not waited for. Two faults of a head may be seen later: that it has more than 64 fields, at its end; and where more than
/// 4,096 bytes of it have come, any, once they have doubled.
///
/// Where the source tells its bytes, does not fail, and hands them and its end out in at most 4,096 reads, the answer is
/// that of the bytes, however they are cut. `ReadFailed`: a read failed. The other faults are those of the bytes;
/// `TooLong` is also that 4,096 reads did not do: what they handed out settles no answer.
pub fn read_reply<R: Source>(alloc: Global, reader: &mut R, max: usize) -> Result<Reply, HttpFault>
    ensures answer { SettlesReply max (R.seen reader.old).input (R.seen reader.new).input result }
    ensures reads { MakesAtMost MOST_READS (R.seen reader.old).input (R.seen reader.new).input }
    ensures output { (R.seen reader.new).output ≡ (R.seen reader.old).output }
    ensures count { CountsMessage result (R.seen reader.old).failed_calls (R.seen reader.new).failed_calls }

    // Any read may be the one that fails, so none is made but where more bytes are rightly waited for.
    ensures prompt { IsErrOf result faults.ReadFailed → HandedNoReply max (R.seen reader.old).input (R.seen reader.new).input }
{
    Room::new().read_reply(alloc, reader, max)
}

/// Reads one reply as [`read_reply`] does, with what its field `Date` tells.
pub fn read_dated_reply<R: Source>(
    alloc: Global,
    reader: &mut R,
    max: usize,
) -> Result<DatedReply, HttpFault>
    ensures answer { SettlesDated max (R.seen reader.old).input (R.seen reader.new).input result }
    ensures reads { MakesAtMost MOST_READS (R.seen reader.old).input (R.seen reader.new).input }
    ensures output { (R.seen reader.new).output ≡ (R.seen reader.old).output }
    ensures count { CountsMessage result (R.seen reader.old).failed_calls (R.seen reader.new).failed_calls }

    // Any read may be the one that fails, so none is made but where more bytes are rightly waited for.
    ensures prompt { IsErrOf result faults.ReadFailed → HandedNoDated max (R.seen reader.old).input (R.seen reader.new).input }
{
    Room::new().read_dated_reply(alloc, reader, max)
}

/// Reads one request, as [`read_reply`] does a reply. It has port 0.
pub fn read_request<R: Source>(
    alloc: Global,
    reader: &mut R,
    max: usize,
) -> Result<Request, HttpFault>
    ensures answer { SettlesRequest max (R.seen reader.old).input (R.seen reader.new).input result }
    ensures reads { MakesAtMost MOST_READS (R.seen reader.old).input (R.seen reader.new).input }
    ensures output { (R.seen reader.new).output ≡ (R.seen reader.old).output }
    ensures count { CountsMessage result (R.seen reader.old).failed_calls (R.seen reader.new).failed_calls }

    // Any read may be the one that fails, so none is made but where more bytes are rightly waited for.
    ensures prompt { IsErrOf result faults.ReadFailed → HandedNoRequest max (R.seen reader.old).input (R.seen reader.new).input }
{
    Room::new().read_request(alloc, reader, max)
}

impl Room {
    /// Reads one reply into this room, as [`read_reply`] does.
    pub fn read_reply<R: Source>(
        &mut self,
        alloc: Global,
        reader: &mut R,
        max: usize,
    ) -> Result<Reply, HttpFault>
        ensures answer { SettlesReply max (R.seen reader.old).input (R.seen reader.new).input result }
        ensures reads { MakesAtMost MOST_READS (R.seen reader.old).input (R.seen reader.new).input }
        ensures output { (R.seen reader.new).output ≡ (R.seen reader.old).output }
        ensures count { CountsMessage result (R.seen reader.old).failed_calls (R.seen reader.new).failed_calls }
        ensures prompt { IsErrOf result faults.ReadFailed → HandedNoReply max (R.seen reader.old).input (R.seen reader.new).input }
    {
        read_message(alloc, reader, self, max)
    }

    /// Reads one reply into this room, as [`read_dated_reply`] does.
    pub fn read_dated_reply<R: Source>(
        &mut self,
        alloc: Global,
        reader: &mut R,
        max: usize,
    ) -> Result<DatedReply, HttpFault>
        ensures answer { SettlesDated max (R.seen reader.old).input (R.seen reader.new).input result }
        ensures reads { MakesAtMost MOST_READS (R.seen reader.old).input (R.seen reader.new).input }
        ensures output { (R.seen reader.new).output ≡ (R.seen reader.old).output }
        ensures count { CountsMessage result (R.seen reader.old).failed_calls (R.seen reader.new).failed_calls }
        ensures prompt { IsErrOf result faults.ReadFailed → HandedNoDated max (R.seen reader.old).input (R.seen reader.new).input }
    {
        read_message(alloc, reader, self, max)
    }

    /// Reads one request into this room, as [`read_request`] does.
    pub fn read_request<R: Source>(
        &mut self,
        alloc: Global,
        reader: &mut R,
        max: usize,
    ) -> Result<Request, HttpFault>
        ensures answer { SettlesRequest max (R.seen reader.old).input (R.seen reader.new).input result }
        ensures reads { MakesAtMost MOST_READS (R.seen reader.old).input (R.seen reader.new).input }
        ensures output { (R.seen reader.new).output ≡ (R.seen reader.old).output }
        ensures count { CountsMessage result (R.seen reader.old).failed_calls (R.seen reader.new).failed_calls }
        ensures prompt { IsErrOf result faults.ReadFailed → HandedNoRequest max (R.seen reader.old).input (R.seen reader.new).input }
    {
        read_message(alloc, reader, self, max)
    }
}

/// Reads one message of at most `max` bytes.
fn read_message<M: Message, R: Source>(
    alloc: Global,
    reader: &mut R,
    room: &mut Room,
    max: usize,
) -> Result<M, HttpFault>
    ensures answer { SettlesFrom M.has_no_head (M.is_answer max) (R.seen reader.old).input (R.seen reader.new).input result }
    ensures reads { MakesAtMost MOST_READS (R.seen reader.old).input (R.seen reader.new).input }
    ensures output { (R.seen reader.new).output ≡ (R.seen reader.old).output }
    ensures count { CountsMessage result (R.seen reader.old).failed_calls (R.seen reader.new).failed_calls }
    ensures prompt { IsErrOf result faults.ReadFailed → HandedNone M.has_no_head (M.is_answer max) (R.seen reader.old).input.remaining (R.seen reader.new).input.remaining }
{
    M::laws();
    let mut bytes = Vec::new(alloc);
    match look(alloc, &bytes, max, false, 0) {
        Verdict::Done(answer) => answer,
        Verdict::More(known) => {
            let mut taken = room.take(alloc)?;
            let answer = message_from(alloc, reader, &mut taken, &mut bytes, max, known);
            room.put(taken);
            answer
        }
    }
}

/// Reads a message after `bytes`, which are empty.
fn message_from<M: Message, R: Source>(
    alloc: Global,
    reader: &mut R,
    room: &mut [u8],
    bytes: &mut Vec<u8>,
    max: usize,
    known: Known<M>,
) -> Result<M, HttpFault>
    requires room { length room.old ≡ MOST_ROOM }
    requires none { bytes.old.items ≡ [] }
    requires known { StaysKnown M.has_no_head (M.is_answer max) M.with_body max bytes.old.items known }
    requires current { IsCurrent max bytes.old.items known }
    ensures answer { SettlesFrom M.has_no_head (M.is_answer max) (R.seen reader.old).input (R.seen reader.new).input result }
    ensures reads { MakesAtMost MOST_READS (R.seen reader.old).input (R.seen reader.new).input }
    ensures output { (R.seen reader.new).output ≡ (R.seen reader.old).output }
    ensures count { CountsMessage result (R.seen reader.old).failed_calls (R.seen reader.new).failed_calls }
    ensures prompt { IsErrOf result faults.ReadFailed → HandedNone M.has_no_head (M.is_answer max) (R.seen reader.old).input.remaining (R.seen reader.new).input.remaining }
{
    M::laws();
    let mut known = known;
    for _ in 0..MOST_READS {
        let some = read_more(reader, room, bytes, max)?;
        match go_on(alloc, known, bytes, max, !some) {
            Verdict::Done(answer) => return answer,
            Verdict::More(next) => known = next,
        }
    }
    Err(HttpFault::TooLong)
}
