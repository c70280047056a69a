//! The sockets of `serve`: where commands come in, and where onlookers do. Neither can stop it: one that cannot be had is an alert.
ghost use Rattle.std.specs.Prelude.{◌≡◌, List, None, Option};
ghost use Rattle.std.specs.Result.{result_ok};
ghost use Rattle.agent_run.specs.Doors.{AsksDoor, DoorCall, IsDoor, SaysNoDoor, cost_without, number_of};

use agent_log::Desk;
use base_clients::{Door, Entrance};
use base_clock::Reading;
use base_moment::Text;
use program_commands::Socket;
use std::alloc::Global;
use vault_lanes::MOST_WIDTH;

/// Guests of the agent.
#[derive(Clone, Copy, Debug, PartialEq, Eq)]
pub enum Guests {
    /// Those that give commands.
    Clients,
    /// Those that look on.
    Onlookers,
}

impl Guests {
    /// The number under which the wait tells of their door: after those of the lanes to the broker.
    fn number(self) -> u32
        ensures { result ≡ number_of self }
    {
        match self {
            Guests::Clients => MOST_WIDTH,
            Guests::Onlookers => MOST_WIDTH + 1,
        }
    }

    /// What it costs where their socket cannot be had.
    fn cost(self) -> &'static str
        ensures { result.now ≡ cost_without self }
    {
        match self {
            Guests::Clients => "no command can be given",
            Guests::Onlookers => "nobody can look on",
        }
    }
}

/// What opens the sockets at which guests come in.
pub trait Doors<T, D> {
    /// The doors that it was asked for, where they are known.
    ghost asked: { Self → Option (List (DoorCall D)) } = { λ _. None };

    /// A door at an entrance, of which the wait tells under this number; or why it cannot be had, in words. `None`: memory is wanting for
    /// them.
    fn open(
        &mut self,
        alloc: Global,
        entrance: Entrance<'_>,
        number: u32,
    ) -> Result<D, Option<Text>>
        ensures { AsksDoor (record { entrance = entrance.entry; number = number; door = result_ok result }) (Self.asked self.old) (Self.asked self.new) };
}

/// The door of these guests, where a socket is asked for; one that cannot be had is an alert.
pub(crate) fn open_door<T, D: Door<T>, O: Doors<T, D>>(
    alloc: Global,
    now: Reading,
    socket: Option<Socket<'_>>,
    guests: Guests,
    doors: &mut O,
    desk: &mut Desk,
) -> Option<D>
    ensures { IsDoor O.asked now socket.entry guests result doors.old doors.new desk.old desk.new }
{
    let Socket { word, entrance } = socket?;
    match doors.open(alloc, entrance, guests.number()) {
        Ok(door) => Some(door),
        Err(why) => {
            tell(alloc, now, word, why, guests, desk);
            None
        }
    }
}

/// Says why the socket of this word cannot be had, and what that costs.
#[tactic(auto, using(crate::proofs::Putting::says_no_door))]
fn tell(alloc: Global, now: Reading, word: &str, why: Option<Text>, guests: Guests, desk: &mut Desk)
    ensures { SaysNoDoor now word.now guests desk.old desk.new }
{
    let (socket, cost) = (word.as_bytes(), guests.cost().as_bytes());
    match why {
        Some(why) => desk.hear_no_socket(alloc, now, socket, why.list(), cost),
        None => desk.hear_no_socket(alloc, now, socket, b"out of memory", cost),
    }
}
