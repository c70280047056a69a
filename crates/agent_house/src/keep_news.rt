//! Who does not keep changes yet tries again to.
ghost use Rattle.std.specs.Prelude.{◌≡◌};
ghost use Rattle.agent_house.specs.Retries.{KeeperTries, SaysNews, TriesAgain, folder_in, folder_where, is_any_asked, keeps_in, read_badly, read_so, read_well};

use crate::house::House;
use agent_answers::ClientOrder;
use agent_ledger::{KeepNews, Keeping};
use agent_log::{Desk, say_at_start};
use agent_pages::{FileReading, StateFolder};
use base_clock::Reading;
use std::alloc::{AllocError, Global};

impl<S, T, D, K: Keeping, E> House<S, T, D, K, E> {
    /// Whoever does not keep changes yet tries again to, where it is time for that or a client asks for something. Once they are kept the
    /// log says what came of that.
    pub(crate) fn try_again(
        &mut self,
        alloc: Global,
        now: Reading,
        asked: &Result<Option<ClientOrder>, AllocError>,
    )
        ensures { TriesAgain K.does now (is_any_asked asked.now) self.old self.new }
    {
        let news = try_again(alloc, &mut self.state, now.elapsed, asked);
        say_news(alloc, now, &news, &mut self.file, &mut self.desk);
    }
}

// The log says it, and how the file was read.
fn say_news(
    alloc: Global,
    now: Reading,
    news: &Option<KeepNews>,
    file: &mut FileReading,
    desk: &mut Desk,
)
    ensures { SaysNews now news.now file.old desk.old file.new desk.new }
{
    match news {
        None => {}
        Some(news) => {
            *file = read_so(now, news.is_good, *file);
            say_at_start(alloc, now, &news.said, desk);
        }
    }
}

fn try_again<K: Keeping>(
    alloc: Global,
    state: &mut Option<K>,
    now: u64,
    asked: &Result<Option<ClientOrder>, AllocError>,
) -> Option<KeepNews>
    ensures { KeeperTries K.does now (is_any_asked asked.now) result state.old state.new }
{
    match state {
        None => None,
        Some(state) => state.try_again(alloc, now, is_any_asked(asked)),
    }
}

/// Whether somebody keeps changes over a restart.
pub(crate) fn keeps<K: Keeping>(state: &Option<K>) -> bool
    ensures { result ≡ keeps_in K.keeps state.now }
{
    match state {
        None => false,
        Some(state) => state.keeps(),
    }
}

/// Whether a state folder keeps changes over a restart.
pub(crate) fn folder_of<K: Keeping>(state: &Option<K>) -> StateFolder
    ensures { result ≡ folder_in K.keeps state.now }
{
    match state {
        None => StateFolder::NotAskedFor,
        Some(state) => folder_where(state.keeps()),
    }
}

// One that was asked for.
fn folder_where(keeps: bool) -> StateFolder
    ensures { result ≡ folder_where keeps }
{
    if keeps {
        StateFolder::IsOpen
    } else {
        StateFolder::CannotBeUsed
    }
}

// Whether something is asked for.
fn is_any_asked(asked: &Result<Option<ClientOrder>, AllocError>) -> bool
    ensures { result ≡ is_any_asked asked.now }
{
    match asked {
        Ok(Some(_)) => true,
        Ok(None) | Err(_) => false,
    }
}

fn read_so(now: Reading, is_good: bool, before: FileReading) -> FileReading
    ensures { result ≡ read_so now is_good before }
{
    if is_good {
        read_well(now)
    } else {
        read_badly(now, before)
    }
}

/// The file was read at this moment, and was good.
pub(crate) fn read_well(now: Reading) -> FileReading
    ensures { result ≡ read_well now }
{
    let seconds = Some(now.wall / 1000);
    FileReading {
        is_good: true,
        at: seconds,
        good_at: seconds,
    }
}

/// Or was not.
pub(crate) fn read_badly(now: Reading, before: FileReading) -> FileReading
    ensures { result ≡ read_badly now before }
{
    FileReading {
        is_good: false,
        at: Some(now.wall / 1000),
        ..before
    }
}
