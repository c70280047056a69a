//! The sockets of the system at which guests of `serve` come in, and the files of which a start says something.
use agent_run::Doors;
use agent_system::SystemSecrets;
use base_clients::{Entrance, SocketDoor, SocketTalk};
use base_clock::SystemClock;
use base_device::{InputFault, read_file};
use base_files::Inputs;
use base_moment::Text;
use mio::Registry;
use state_secrets::{FileStamp, SecretFiles};
use std::alloc::{AllocError, Global};
use std::io;
use std::net::Net;
use std::rt::{Clock, Files};

/// What opens sockets of the system, so that one clock's wait tells of them, and reads what the system says of its limits and its mounts.
#[derive(Drop)]
pub struct SystemDoors<'a, R> {
    rt: &'a R,
    registry: Option<Registry>,
}

impl<'a, R: Net + Clock> SystemDoors<'a, R> {
    /// Those of which this clock's wait tells.
    pub fn by(rt: &'a R, clock: &SystemClock<'_, R>) -> SystemDoors<'a, R> {
        SystemDoors {
            rt,
            registry: registry_of(clock),
        }
    }
}

impl<'a, R: Files + AllocGlobal + Net + Clock> Doors<SocketTalk, SocketDoor>
    for SystemDoors<'a, R> {
    fn open(
        &mut self,
        alloc: Global,
        entrance: Entrance<'_>,
        number: u32,
    ) -> Result<SocketDoor, Option<Text>> {
        let registry = match &self.registry {
            None => None,
            Some(registry) => registry.try_clone().ok(),
        };
        match SocketDoor::at(self.rt, entrance, registry, number) {
            Ok(door) => Ok(door),
            Err(error) => Err(reason_of(alloc, &error).ok()),
        }
    }
}

impl<'a, R: Files + AllocGlobal> Inputs for SystemDoors<'a, R> {
    ghost use Rattle.std.specs.Prelude.{None};

    ghost bytes_at = { λ _ _. None };

    fn read(&mut self, _alloc: Global, path: &str, max: usize) -> Result<Text, InputFault> {
        read_file(self.rt, path, max)
    }
}

impl<'a, R: Files + AllocGlobal> SecretFiles for SystemDoors<'a, R> {
    ghost use Rattle.std.specs.Prelude.{None};

    ghost calls = { λ _. None };

    fn stamp(&mut self, path: &[u8]) -> Option<FileStamp> {
        SystemSecrets::new(self.rt).stamp(path)
    }

    fn open(&mut self, alloc: Global, path: &[u8], max: usize) -> Result<Text, InputFault> {
        SystemSecrets::new(self.rt).open(alloc, path, max)
    }
}

/// What a clock's wait is told of; `None` where that cannot be had.
pub fn registry_of<R: Net + Clock>(clock: &SystemClock<'_, R>) -> Option<Registry> {
    match clock.registry() {
        None => None,
        Some(registry) => registry.try_clone().ok(),
    }
}

/// The words of an error, without its number. The only error is lack of memory.
fn reason_of(alloc: Global, error: &io::Error) -> Result<Text, AllocError> {
    let text = format!(in alloc; "{error}")?;
    Text::of(alloc, reason(&text).as_bytes())
}

/// The words of an error that is written, without its number.
fn reason(text: &str) -> &str {
    match text.find(" (os error") {
        Some(end) => &text[..end],
        None => text,
    }
}
