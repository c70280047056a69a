//! How far a guest has come, as a value.
ghost use Rattle.std.specs.Prelude.{◌≡◌, option_map};
ghost use Rattle.base_clients.specs.Guests.{asked_bytes, count, has_waited, heard_to, in_time, is_following, is_stage_asked, is_stage_busy, is_stage_over, is_waiting, moved_by, read_to, told_to, written_to};

use crate::left::Left;
use base_device::Tried;
use base_moment::Text;

/// How far a guest has come.
#[derive(Debug, Drop)]
pub enum GuestStage {
    /// This has come of its request, and more is to come.
    Reading(Text),
    /// This is its request, which nobody has taken yet.
    Asked(Text),
    /// Its request was taken, and there is no answer yet.
    Waiting,
    /// This has still to be written of its answer.
    Answering(Left),
    /// Its answer goes on: this has still to be written of what it was given so far, and more may be given.
    Following(Left),
    /// Its connection is to be closed.
    Over,
}

impl GuestStage {
    /// Whether its connection is to be closed.
    pub(crate) fn is_over(&self) -> bool
        ensures { result ≡ is_stage_over self.now }
    {
        match self {
            GuestStage::Over => true,
            GuestStage::Reading(_)
            | GuestStage::Asked(_)
            | GuestStage::Waiting
            | GuestStage::Answering(_)
            | GuestStage::Following(_) => false,
        }
    }

    /// Whether there is a request that nobody has taken yet.
    pub(crate) fn is_asked(&self) -> bool
        ensures { result ≡ is_stage_asked self.now }
    {
        match self {
            GuestStage::Asked(_) => true,
            GuestStage::Reading(_)
            | GuestStage::Waiting
            | GuestStage::Answering(_)
            | GuestStage::Following(_)
            | GuestStage::Over => false,
        }
    }

    /// Its request, where nobody has taken it yet.
    pub(crate) fn asked_bytes(&self) -> Option<&[u8]>
        ensures { option_map (λ bytes. bytes.now) result ≡ asked_bytes self.now }
    {
        match self {
            GuestStage::Asked(bytes) => Some(bytes.list()),
            GuestStage::Reading(_)
            | GuestStage::Waiting
            | GuestStage::Answering(_)
            | GuestStage::Following(_)
            | GuestStage::Over => None,
        }
    }

    /// Whether its request was taken, and there is no answer yet.
    pub(crate) fn is_waiting(&self) -> bool
        ensures { result ≡ is_waiting self.now }
    {
        match self {
            GuestStage::Waiting => true,
            GuestStage::Reading(_)
            | GuestStage::Asked(_)
            | GuestStage::Answering(_)
            | GuestStage::Following(_)
            | GuestStage::Over => false,
        }
    }

    /// Whether it has to be read or written by a moment.
    pub(crate) fn is_busy(&self) -> bool
        ensures { result ≡ is_stage_busy self.now }
    {
        match self {
            GuestStage::Reading(_) | GuestStage::Answering(_) => true,
            GuestStage::Asked(_)
            | GuestStage::Waiting
            | GuestStage::Following(_)
            | GuestStage::Over => false,
        }
    }

    /// Whether its answer goes on.
    pub(crate) fn is_following(&self) -> bool
        ensures { result ≡ is_following self.now }
    {
        match self {
            GuestStage::Following(_) => true,
            GuestStage::Reading(_)
            | GuestStage::Asked(_)
            | GuestStage::Waiting
            | GuestStage::Answering(_)
            | GuestStage::Over => false,
        }
    }

    /// What it is at a moment, where it has to be read and written by another.
    pub(crate) fn in_time(self, now: u64, by: u64) -> GuestStage
        ensures { result ≡ in_time now by self }
    {
        match self {
            GuestStage::Reading(bytes) if now < by => GuestStage::Reading(bytes),
            GuestStage::Answering(left) if now < by => GuestStage::Answering(left),
            GuestStage::Reading(_) | GuestStage::Answering(_) | GuestStage::Over =>
                GuestStage::Over,
            GuestStage::Asked(bytes) => GuestStage::Asked(bytes),
            GuestStage::Waiting => GuestStage::Waiting,
            GuestStage::Following(left) => GuestStage::Following(left),
        }
    }
}

/// What a guest becomes by a read, with all that has come of its request by now.
pub(crate) fn read_to(tried: Tried, is_whole: bool, most: usize, bytes: Vec<u8>) -> GuestStage
    ensures { result ≡ read_to tried is_whole most bytes.items }
{
    let is_long = bytes.len() > most;
    let bytes = Text::from_vec(bytes);
    match tried {
        Tried::Done(0) => GuestStage::Asked(bytes),
        Tried::Done(_) if is_whole || is_long => GuestStage::Asked(bytes),
        Tried::Done(_) | Tried::Waits => GuestStage::Reading(bytes),
        Tried::Failed => GuestStage::Over,
    }
}

/// What a guest becomes by a write, with all that has still to be written of its answer.
pub(crate) fn written_to(tried: Tried, left: Left) -> GuestStage
    ensures { result ≡ written_to tried left }
{
    match tried {
        Tried::Failed => GuestStage::Over,
        Tried::Done(_) | Tried::Waits if left.is_empty() => GuestStage::Over,
        Tried::Done(_) | Tried::Waits => GuestStage::Answering(left),
    }
}

/// What a guest whose answer goes on becomes by a write, with all that has still to be written of what it was given.
pub(crate) fn told_to(tried: Tried, left: Left) -> GuestStage
    ensures { result ≡ told_to tried left }
{
    match tried {
        Tried::Failed => GuestStage::Over,
        Tried::Done(_) | Tried::Waits => GuestStage::Following(left),
    }
}

/// What it becomes by a read, where all that it was given is written: one that sends more, or has gone, is sent away.
pub(crate) fn heard_to(tried: Tried, left: Left) -> GuestStage
    ensures { result ≡ heard_to tried left }
{
    match tried {
        Tried::Done(_) | Tried::Failed => GuestStage::Over,
        Tried::Waits => GuestStage::Following(left),
    }
}

/// The moment of a guest's last progress, after a try.
pub(crate) fn moved_by(tried: Tried, now: u64, moved: u64) -> u64
    ensures { result ≡ moved_by tried now moved }
{
    match tried {
        Tried::Done(0) | Tried::Waits | Tried::Failed => moved,
        Tried::Done(_) => now,
    }
}

/// Whether a try came to nothing but that it would have to wait.
pub(crate) fn has_waited(tried: Tried) -> bool
    ensures { result ≡ has_waited tried }
{
    match tried {
        Tried::Waits => true,
        Tried::Done(_) | Tried::Failed => false,
    }
}

/// How many bytes a try has moved.
pub(crate) fn count(tried: Tried) -> usize
    ensures { result ≡ count tried }
{
    match tried {
        Tried::Done(n) => n,
        Tried::Waits | Tried::Failed => 0,
    }
}
