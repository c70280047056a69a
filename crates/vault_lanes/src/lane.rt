//! One request over one connection.
ghost use Rattle.std.specs.Prelude.{◌≡◌, ◌<◌, ◌≤◌, ◌⊎◌, [], Ok, Err, IfOk, IsOk, IsTrue, OnErr, false, true, if◌then◌else◌, length, take, vec_capacity};
ghost use Rattle.std.specs.Io.KnownBytes.{Appends, Keeps};
ghost use Rattle.vault_lanes.specs.Allowed.{deadline};
ghost use Rattle.base_device.specs.Tries.{IfTryDone};
ghost use Rattle.base_device.specs.declared.tried.Tried.TheVariants.{Done};
ghost use Rattle.vault_lanes.specs.Failing.{FailsAs, FailsMore, answer_of_sending, failures_in};
ghost use Rattle.vault_lanes.specs.Lanes.{AnswerIsTold, AreWaitedFor, Came, FrontIsWritten, IsCounted, IsJudgedFirst, IsPatient, ReplyIsHeard, ReplyIsRead, RequestIsSettled, to_come};
ghost use Rattle.vault_lanes.specs.code.Courses.{came_by, is_unjudged};
ghost use Rattle.vault_lanes.specs.code.Ways.{HasUnjudged, left_of};
ghost use Rattle.vault_lanes.specs.declared.stage.RequestStage.TheVariants.{Connecting};
ghost use Rattle.vault_http.specs.declared.http_fault.HttpFault.TheVariants.{OutOfMemory};

use crate::allowance::Allowance;
use crate::line::Line;
use crate::loss::Loss;
use crate::stage::RequestStage;
use base_device::Tried;
use std::alloc::{AllocError, Global};
use vault_http::{Arriving, DatedReply, HttpFault};

/// A request on its way over a connection of its own.
#[derive(Drop)]
pub(crate) struct Lane<L> {
    pub(crate) line: L,
    /// What is still to be written of the request.
    pub(crate) unsent: Vec<u8>,
    pub(crate) course: Course,
}

/// How far it has come, and how long it may take.
#[derive(Drop)]
pub(crate) struct Course {
    pub(crate) allowance: Allowance,
    pub(crate) stage: RequestStage,
    /// What has come of the reply, and was judged.
    pub(crate) arriving: Arriving,
    /// What was read of it last, as long as it is not judged: memory may be wanting for that.
    pub(crate) piece: Vec<u8>,
    /// Whether the end was read.
    pub(crate) has_ended: bool,
}

impl<L: Line> Lane<L> {
    /// That of a request with this text over a connection to which nothing was written. `piece` is to hold what is read: it is empty,
    /// and has room for a read, so that this is not asked for once the request was sent. It takes no memory.
    pub(crate) fn new(
        alloc: Global,
        line: L,
        text: Vec<u8>,
        piece: Vec<u8>,
        allowance: Allowance,
    ) -> Lane<L>
        ensures line { result.line ≡ line }
        ensures unsent { result.unsent ≡ text }
        ensures allowance { result.course.allowance ≡ allowance }
        ensures stage { result.course.stage ≡ Connecting }
        ensures none { result.course.arriving ≡ [] }
        ensures piece { result.course.piece ≡ piece }
        ensures unended { result.course.has_ended ≡ false }
    {
        Lane {
            line,
            unsent: text,
            course: Course {
                allowance,
                stage: RequestStage::Connecting,
                arriving: Arriving::new(alloc),
                piece,
                has_ended: false,
            },
        }
    }

    /// The moment by which it has to come further.
    pub(crate) fn deadline(&self) -> u64
        ensures { result ≡ deadline self.now.course.allowance self.now.course.stage }
    {
        self.course.allowance.deadline(self.course.stage)
    }

    #[tactic(auto, using(crate::proofs::Failed::fails_none, crate::proofs::Failed::kept_all))]
    /// Goes as far as it can at this moment: writes what is left of the request, and reads what has come of the reply. It gives
    /// what came of the request, or `None` where it waits on. `room` is what each read is offered.
    ///
    /// The only error is out of memory: what was written by then is not written again, and what was read is held, and judged at
    /// the next call before more is read.
    pub(crate) fn go_on(
        &mut self,
        alloc: Global,
        room: &mut [u8],
        now: u64,
    ) -> Result<Option<Result<DatedReply, Loss>>, AllocError>
        requires room { 0 < length room.old }
        ensures room { length room.new ≡ length room.old }
        ensures allowance { self.new.course.allowance ≡ self.old.course.allowance }
        ensures written { FrontIsWritten self.old.unsent.items self.new.unsent.items (L.written self.old.line) (L.written self.new.line) }
        ensures heard { IfOk result (λ answer. ReplyIsHeard (came_by self.old.course) answer (came_by self.new.course) (left_of L.remaining self.old) (left_of L.remaining self.new)) }
        ensures first { HasUnjudged self.old → IfOk result (λ answer. IsJudgedFirst (came_by self.old.course) self.old.course.has_ended answer (self.new.line ≡ self.old.line)) }
        ensures settled { IfOk result (λ answer. RequestIsSettled self.new.course.allowance now self.new.course.stage self.new.unsent.items answer) }
        ensures failing { IfOk result (λ answer. FailsAs (came_by self.old.course) (left_of L.remaining self.old) (L.reason self.new.line) answer (L.failures self.old.line) (L.failures self.new.line)) }
        ensures came { OnErr result (Came (came_by self.old.course) (came_by self.new.course) (left_of L.remaining self.old) (left_of L.remaining self.new)) }
        ensures still { HasUnjudged self.old → OnErr result ((self.new.line ≡ self.old.line) ⊎ AreWaitedFor (came_by self.old.course)) }
        ensures unjudged { OnErr result (HasUnjudged self.new ⊎ ((came_by self.new.course ≡ came_by self.old.course) ⊎ AreWaitedFor (came_by self.new.course))) }
        ensures holds { OnErr result (length room.old ≤ vec_capacity self.old.course.piece → HasUnjudged self.new) }
        ensures unfailed { OnErr result (FailsMore 0 (L.failures self.old.line) (L.failures self.new.line)) }
    {
        if !self.unsent.is_empty() {
            if let Err(loss) = self.write_on(now) {
                return Ok(Some(Err(loss)));
            }
            if !self.unsent.is_empty() {
                return Ok(None);
            }
        }
        read_on(alloc, &mut self.line, &mut self.course, room, now)
    }

    #[tactic(auto, using(crate::proofs::Failed::failed_as, crate::proofs::Failed::waits_as))]
    /// Writes what is left of the request, as far as it is taken. It takes no memory: what was written is never written again.
    fn write_on(&mut self, now: u64) -> Result<(), Loss>
        requires unsent { 0 < length self.old.unsent.items }
        ensures allowance { self.new.course.allowance ≡ self.old.course.allowance }
        ensures arriving { self.new.course.arriving ≡ self.old.course.arriving }
        ensures piece { self.new.course.piece ≡ self.old.course.piece }
        ensures ended { self.new.course.has_ended ≡ self.old.course.has_ended }
        ensures written { FrontIsWritten self.old.unsent.items self.new.unsent.items (L.written self.old.line) (L.written self.new.line) }
        ensures remaining { Keeps (left_of L.remaining self.old) (left_of L.remaining self.new) }
        ensures patient { IsPatient self.new.course.allowance now self.new.course.stage self.new.unsent.items result }
        ensures failing { FailsAs (came_by self.old.course) (left_of L.remaining self.old) (L.reason self.new.line) (answer_of_sending result) (L.failures self.old.line) (L.failures self.new.line) }
    {
        let written = write(&mut self.line, &self.unsent);
        self.unsent.drain(..written.taken);
        self.course.stage = self.course.stage.wrote(written.taken, self.unsent.len());
        if self.unsent.is_empty() {
            return Ok(());
        }
        if written.has_failed {
            return Err(self.course.stage.failed(self.line.reason()));
        }
        self.course.stage.waits(&self.course.allowance, now)
    }
}

/// How much of a text was taken, and whether the connection failed then.
#[derive(Clone, Copy, Debug, PartialEq, Eq)]
struct Written {
    taken: usize,
    has_failed: bool,
}

/// Writes a text as far as it is taken.
#[tactic(auto, using(crate::proofs::Failed::fails_none, crate::proofs::Failed::kept_then))]
fn write<L: Line>(line: &mut L, text: &[u8]) -> Written
    ensures within { result.taken ≤ length text.now }
    ensures appended { Appends (L.written line.old) (L.written line.new) (take result.taken text.now) }
    ensures remaining { Keeps (L.remaining line.old) (L.remaining line.new) }
    ensures failed { IsTrue result.has_failed → result.taken < length text.now }
    ensures failures { FailsMore (if result.has_failed then 1 else 0) (L.failures line.old) (L.failures line.new) }
{
    let mut taken = 0;
    while taken < text.len() {
        match line.give(&text[taken..]) {
            Tried::Done(n) => taken += n,
            Tried::Waits => {
                return Written {
                    taken,
                    has_failed: false,
                };
            }
            Tried::Failed => {
                return Written {
                    taken,
                    has_failed: true,
                };
            }
        }
    }
    Written {
        taken,
        has_failed: false,
    }
}

/// Reads what has come of the reply to a request that was sent.
#[tactic(auto, using(crate::proofs::Failed::fails_none, crate::proofs::Failed::kept_then, crate::proofs::Failed::failed_as, crate::proofs::Failed::waits_as))]
fn read_on<L: Line>(
    alloc: Global,
    line: &mut L,
    course: &mut Course,
    room: &mut [u8],
    now: u64,
) -> Result<Option<Result<DatedReply, Loss>>, AllocError>
    requires room { 0 < length room.old }
    ensures room { length room.new ≡ length room.old }
    ensures allowance { course.new.allowance ≡ course.old.allowance }
    ensures written { Keeps (L.written line.old) (L.written line.new) }
    ensures heard { IfOk result (λ answer. ReplyIsHeard (came_by course.old) answer (came_by course.new) (to_come course.old.has_ended (L.remaining line.old)) (to_come course.new.has_ended (L.remaining line.new))) }
    ensures first { IsTrue (is_unjudged course.old) → IfOk result (λ answer. IsJudgedFirst (came_by course.old) course.old.has_ended answer (line.new ≡ line.old)) }
    ensures settled { IfOk result (λ answer. RequestIsSettled course.new.allowance now course.new.stage [] answer) }
    ensures failing { IfOk result (λ answer. FailsAs (came_by course.old) (to_come course.old.has_ended (L.remaining line.old)) (L.reason line.new) answer (L.failures line.old) (L.failures line.new)) }
    ensures came { OnErr result (Came (came_by course.old) (came_by course.new) (to_come course.old.has_ended (L.remaining line.old)) (to_come course.new.has_ended (L.remaining line.new))) }
    ensures still { IsTrue (is_unjudged course.old) → OnErr result ((line.new ≡ line.old) ⊎ AreWaitedFor (came_by course.old)) }
    ensures unjudged { OnErr result (IsTrue (is_unjudged course.new) ⊎ ((came_by course.new ≡ came_by course.old) ⊎ AreWaitedFor (came_by course.new))) }
    ensures holds { OnErr result (length room.old ≤ vec_capacity course.old.piece → IsTrue (is_unjudged course.new)) }
    ensures unfailed { OnErr result (FailsMore 0 (L.failures line.old) (L.failures line.new)) }
{
    course.stage = course.stage.sent();
    for _ in 0..course.allowance.most_reads() {
        match course.read(line, room)? {
            Tried::Done(_) => match course.hear(alloc, now)? {
                Some(answer) => return Ok(Some(answer)),
                None => {}
            },
            Tried::Waits => {
                return match course.stage.waits(&course.allowance, now) {
                    Ok(()) => Ok(None),
                    Err(loss) => Ok(Some(Err(loss))),
                };
            }
            Tried::Failed => return Ok(Some(Err(course.stage.failed(line.reason())))),
        }
    }
    Ok(Some(Err(Loss::Timeout)))
}

impl Course {
    /// Whether something was read that is not judged yet, be it the end.
    fn is_unjudged(&self) -> bool
        ensures { result ≡ is_unjudged self.now }
    {
        self.has_ended || !self.piece.is_empty()
    }

    /// Reads a piece of the reply, none at its end, unless there is one that is not judged yet. The room for it is made first, so
    /// that nothing which was read is lost where memory is wanting.
    #[tactic(auto, using(crate::proofs::Failed::fails_none))]
    fn read<L: Line>(&mut self, line: &mut L, room: &mut [u8]) -> Result<Tried, AllocError>
        requires room { 0 < length room.old }
        ensures room { length room.new ≡ length room.old }
        ensures allowance { self.new.allowance ≡ self.old.allowance }
        ensures stage { self.new.stage ≡ self.old.stage }
        ensures written { Keeps (L.written line.old) (L.written line.new) }
        ensures came { Came (came_by self.old) (came_by self.new) (to_come self.old.has_ended (L.remaining line.old)) (to_come self.new.has_ended (L.remaining line.new)) }
        ensures there { IfOk result (λ tried. IfTryDone tried (λ _. IsTrue (is_unjudged self.new))) }
        ensures held { IsTrue (is_unjudged self.old) → (line.new ≡ line.old) × ((self.new ≡ self.old) × (result ≡ Ok (Done (length self.old.piece.items)))) }
        ensures failures { IfOk result (λ tried. FailsMore (failures_in tried) (L.failures line.old) (L.failures line.new)) }
        ensures roomy { length room.old ≤ vec_capacity self.old.piece → IsOk result }
        ensures capacity { vec_capacity self.old.piece ≤ vec_capacity self.new.piece }
        ensures kept { OnErr result ((line.new ≡ line.old) × ((came_by self.new ≡ came_by self.old) × (self.new.has_ended ≡ self.old.has_ended))) }
    {
        if self.is_unjudged() {
            return Ok(Tried::Done(self.piece.len()));
        }
        self.piece.reserve(room.len())?;
        match line.get(room) {
            Tried::Done(n) => {
                self.piece.extend_from_slice(&room[..n])?;
                self.has_ended = n == 0;
                Ok(Tried::Done(n))
            }
            Tried::Waits => Ok(Tried::Waits),
            Tried::Failed => Ok(Tried::Failed),
        }
    }

    /// Judges what was read last, behind what has come before. An answer ends the course; where memory is wanting for it, all is
    /// as it was.
    fn hear(
        &mut self,
        alloc: Global,
        now: u64,
    ) -> Result<Option<Result<DatedReply, Loss>>, AllocError>
        ensures allowance { self.new.allowance ≡ self.old.allowance }
        ensures ended { self.new.has_ended ≡ self.old.has_ended }
        ensures counted { IfOk result (λ answer. IsCounted self.old.allowance now self.old.stage answer self.new.stage) }
        ensures told { IfOk result (λ answer. AnswerIsTold (came_by self.old) self.old.has_ended answer (came_by self.new)) }
        ensures capacity { vec_capacity self.new.piece ≡ vec_capacity self.old.piece }
        ensures kept { OnErr result ((came_by self.new ≡ came_by self.old) × (is_unjudged self.new ≡ is_unjudged self.old)) }
    {
        match self.arriving.take(alloc, &self.piece, self.has_ended) {
            Some(read) => {
                let answer = answer_of(read)?;
                Ok(Some(answer))
            }
            None => {
                self.piece.clear();
                match self.stage.came(&self.allowance, now) {
                    Ok(stage) => {
                        self.stage = stage;
                        Ok(None)
                    }
                    Err(loss) => Ok(Some(Err(loss))),
                }
            }
        }
    }
}

/// The answer that bytes are read as. The only error is out of memory.
fn answer_of(read: Result<DatedReply, HttpFault>) -> Result<Result<DatedReply, Loss>, AllocError>
    ensures read { IfOk result (λ answer. ReplyIsRead read answer) }
    ensures wants { OnErr result (read ≡ Err OutOfMemory) }
{
    match read {
        Ok(dated) => Ok(Ok(dated)),
        Err(fault) => {
            let loss = lost_by(fault)?;
            Ok(Err(loss))
        }
    }
}

/// The loss that a fault of the bytes is. The only error is out of memory.
fn lost_by(fault: HttpFault) -> Result<Loss, AllocError>
    ensures read { IfOk result (λ loss. ReplyIsRead (Err fault) (Err loss)) }
    ensures wants { OnErr result (fault ≡ OutOfMemory) }
{
    match fault {
        HttpFault::OutOfMemory => Err(AllocError),
        HttpFault::Truncated | HttpFault::ReadFailed => Ok(Loss::Closed),
        HttpFault::BadHead
        | HttpFault::BadLength
        | HttpFault::BadChunk
        | HttpFault::TooLong
        | HttpFault::TwoLengths => Ok(Loss::Reply),
    }
}
