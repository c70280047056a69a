//! What the guests of a running agent are answered: its onlookers, over HTTP, and the clients of its control socket.
//!
//! The contract for the layer above: a call of [`Onlookers::go_on`] goes on with each onlooker without waiting, and answers one
//! of those whose question is whole, from the agent as it is then (`specs/Onlooking.antt`), unless the rest after the last answer
//! goes on (`specs/Resting.antt`). Nothing else is written to any of
//! them, and the agent is lent to be read alone. [`Control::go_on`] does the same for clients, but where one asks for something to
//! be done: [`Control::asked`] hands that on, one at a time, and [`Control::answer`] sends its client what it is given, and nobody
//! else; or it is set aside, and [`Control::answer_aside`] does so later (`specs/Wanting.antt`, `specs/Controlling.antt`). Begin with `onlookers`, then `asked`, `wanted` and `control`.
#![tactic(auto)]

mod answering;
mod asked;
mod control;
mod heads;
mod lines;
mod onlookers;
mod rest;
mod wanted;
mod went;

pub use asked::ClientOrder;
pub use control::{Control, MOST_CLIENTS};
pub use heads::Heads;
pub use lines::RequestLines;
pub use onlookers::{MOST_ONLOOKERS, Onlookers};
pub use rest::{MOST_REST, Rest};
pub use wanted::{ClientRefusal, Wanted};
pub use went::Went;
