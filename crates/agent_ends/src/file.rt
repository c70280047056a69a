ghost use Rattle.std.specs.Prelude.{◌≡◌, ◌||◌, IsTrue, OnOk, false, true};
ghost use Rattle.base_disk.specs.Image.{with_file_at};
ghost use Rattle.base_disk.specs.State.{DiskKeeps, IsAfter, LeavesOnly, TellsFailure};
ghost use Rattle.base_disk.specs.Torn.{MovesFile};
ghost use Rattle.agent_ends.specs.Files.{EndsFileGoesOn, FileIsTried, a_second_later, ends_file, is_file_due, tells_of_end};

use crate::disk::agent_ends;
use crate::events::ends_of;
use agent_standing::Agent;
use base_disk::{Disk, DiskFault};
use base_moment::Text;
use std::alloc::Global;
use watch_machine::{Millis, WatchReply};

/// How long the file is left alone after a try, in milliseconds.
const PAUSE: u64 = 1000;

/// The file that keeps the ends of this boot while an agent runs, and its disk. It is written at most once a second.
#[derive(Debug, Drop)]
pub struct EndsFile<D> {
    /// Where it is.
    pub path: String,
    /// The id of this boot.
    pub boot: Text,
    /// Whether something may have been told that it does not keep.
    pub is_stale: bool,
    /// Whether the last try failed.
    pub is_failing: bool,
    /// The moment of the clock that never steps before which it is left alone, in milliseconds.
    pub next: Millis,
    /// What it is on.
    pub disk: D,
}

impl<D> EndsFile<D> {
    /// A file that may not keep what the agent was told.
    pub fn new(path: String, boot: Text, disk: D) -> EndsFile<D>
        ensures { result ≡ record { path = path; boot = boot; is_stale = true; is_failing = false; next = 0; disk = disk } }
    {
        EndsFile {
            path,
            boot,
            is_stale: true,
            is_failing: false,
            next: 0,
            disk,
        }
    }

    /// An answer was handed in: where it tells of an end, the file is stale.
    pub fn hear(&mut self, reply: WatchReply)
        ensures { self.new ≡ record self.old { is_stale = self.old.is_stale || tells_of_end reply } }
    {
        self.is_stale = self.is_stale || tells_of_end(reply);
    }

    /// Another inventory is served: the file is stale.
    pub fn spoil(&mut self)
        ensures { self.new ≡ record self.old { is_stale = true } }
    {
        self.is_stale = true;
    }

    /// Whether it is stale, and was left alone for a second.
    fn is_due(&self, now: Millis) -> bool
        ensures { result ≡ is_file_due self.now now }
    {
        self.is_stale && now >= self.next
    }
}

impl<D: Disk> EndsFile<D> {
    /// Makes the file keep what the agent was told in this boot, where it is stale and was left alone for a second: `None` where it
    /// is not. Where that fails it stays stale, and its content is what it was, or new and whole. `now` is in milliseconds of the
    /// clock that never steps.
    pub fn go_on(
        &mut self,
        alloc: Global,
        agent: &Agent,
        now: Millis,
    ) -> Option<Result<(), DiskFault>>
        ensures { EndsFileGoesOn D.is_known D.state agent.now now result self.old self.new }
    {
        if self.is_due(now) {
            Some(self.keep(alloc, agent, now))
        } else {
            None
        }
    }

    /// Makes the file keep what the agent was told in this boot.
    fn keep(&mut self, alloc: Global, agent: &Agent, now: Millis) -> Result<(), DiskFault>
        ensures { FileIsTried D.is_known D.state agent.now now result self.old self.new }
    {
        let kept = keep_now(
            alloc,
            &mut self.disk,
            self.path.as_str(),
            self.boot.list(),
            agent,
        );
        self.is_failing = kept.is_err();
        self.is_stale = self.is_failing;
        self.next = now.saturating_add(PAUSE);
        kept
    }
}

// Makes the file at `path` keep what an agent was told in this boot.
fn keep_now<D: Disk>(
    alloc: Global,
    disk: &mut D,
    path: &str,
    boot: &[u8],
    agent: &Agent,
) -> Result<(), DiskFault>
    ensures kept { OnOk result (IsTrue D.is_known
        → ((D.state disk.new).seen ≡ with_file_at path.now (ends_file agent.now boot.now) (D.state disk.old).seen)
        × DiskKeeps path.now (D.state disk.new)) }
    ensures any_moment { IsTrue D.is_known → LeavesOnly (D.state disk.old) (D.state disk.new)
        (IsAfter (MovesFile path.now (ends_file agent.now boot.now)) (D.state disk.old)) }
    ensures seen { IsTrue D.is_known
        → MovesFile path.now (ends_file agent.now boot.now) (D.state disk.old).seen (D.state disk.new).seen }
    ensures cause { TellsFailure (D.state disk.old) (D.state disk.new) result }
{
    let ends = ends_of(alloc, agent, boot)?;
    agent_ends(alloc, disk, path, &ends)
}

fn tells_of_end(reply: WatchReply) -> bool
    ensures { result ≡ tells_of_end reply }
{
    match reply {
        WatchReply::Told { .. } => true,
        WatchReply::Refused { .. } | WatchReply::Busy | WatchReply::Lost => false,
    }
}
