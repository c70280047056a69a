//! The neighbours of a running agent, put together: `leasekeep serve` runs the loop of `agent_turns` among them. They are the log
//! (`agent_log`), the clients of a control socket, the onlookers, what keeps the changes that clients give (`agent_ledger`), and a file
//! that keeps the ends over a restart.
//!
//! The contract for the layers above: a [`House`] gives each neighbour its bounded part of a turn: [`House::attend`] what each is sent
//! (`specs/Houses`), [`House::next_change`] carries out what a client asks for, once a credential that it brings was looked up
//! (`specs/Awaiting`), and [`House::settle_given`] tells what came of a change (`specs/Commands`); [`House::look`] what is read, looked up
//! and taken of files of credentials (`specs/Looks`); [`House::agent_ends`] what the file of the ends keeps (`specs/Ends`), and
//! [`House::hear_next`] what is said of the next time of an entry (`specs/Nexts`); who does not keep changes yet tries again to
//! (`specs/Retries`); [`House::hear_ahead`] and [`House::hear_steps`] count what
//! the agent has done behind another (`specs/Behind`). [`House::rest_for`] says for how long it may be left alone (`specs/Rests`). What the loop calls a house for does these things, in
//! this order, and nothing else (`specs/Doing`). What a house is made of is named here too, so that who makes one looks no further. Begin
//! with `specs/Houses` and `specs/Commands`, then `house`.
#![tactic(auto)]

mod add_command;
mod behind;
mod change_commands;
mod client_answer;
mod credential_lookup;
mod ends;
mod follow_command;
mod given;
mod guests;
mod house;
mod keep_news;
mod need_command;
mod next_change;
mod next_time;
mod reload_command;
mod rest;
mod secret_news;

pub use agent_ledger::{AskedFile, Asker, Keeping, Ledger, LookedUp};
pub use agent_log::{Desk, MOST_GIVEN, Mark, Rooms, Want};
pub use agent_words::{
    Demands, Reread, StartFault, disk_words, faults_as_written, faults_to_serve, file_words,
    line_of_fault, read_to_serve, unread_words, why_not_served,
};
pub use follow_command::MOST_FOLLOWERS;
pub use given::{Awaited, Given, GivenAside, GivenNeed};
pub use house::House;
