//! The executor's core: it is handed ticks, answers and new needs, and says when to wake and whom to ask.
//!
//! Its one contract is that of [`Keeper::step`]: an event gives its step by the definition, or a refusal that leaves the
//! keeper as it was. [`Keeper::steps`] takes a list of events, and the laws speak of every such list.
//!
//! # Driving a keeper
//!
//! It reads no clock and sends nothing: who drives it hands in what happens, one event after another.
//!
//! - Tick at the moment of [`Output::Sleep`], and at the next one of [`Output::Round`]: that tick asks. The round's next may be
//!   its own moment, and then tick again at once: that is how an entry is asked again whose answer was lost. Such rounds may
//!   follow one another as long as the entry can still be renewed, so bound them where it matters.
//! - Where the clock is past [`Keeper::next_wake`] by less than the margin, tick with `next_wake` itself and not with the clock:
//!   each entry has the margin left for its renewal, so the round is in time, and the plan stands. A tick with a later moment is
//!   late: needs may be shortened, and the plan is made anew.
//! - Each entry of [`Output::Ask`] is to be answered, in whatever order. An answer that never comes is handed in as
//!   [`Event::Lost`]: until all have answered, the round is open and refuses ticks. [`Keeper::open_round`] and
//!   [`Keeper::waits_for`] say whether a round is open, and for whom it waits.
//! - A need that arises while a round is open waits until it is closed.
//! - What is told counts from the round's moment, which is no later than that of the answer.
//!
//! No tick and no answer is refused as too long, so a run that has begun meets that at a new need alone.
//!
//! # Memory
//!
//! [`Keeper::new`], [`Keeper::steps`] for its list of results, and `step` may want memory: of a tick, where its moment is that of
//! the next wake-up or later; of an answer, where it is the last of its round; and of a need. The other calls take none.
//!
//! Begin with `event`, then `step`.
#![tactic(auto)]

mod always;
mod answer;
mod event;
mod fault;
mod keeper;
mod laws_of_histories;
mod laws_of_needs;
mod laws_of_plans;
mod laws_of_steps;
mod least;
mod need;
mod opening;
mod refusal;
mod replan;
mod round;
mod shorten;
mod shortened;
mod step;
mod steps;
mod tick;

pub use always::{YEAR, always_law, needs_always};
pub use event::{Event, Output};
pub use fault::StepFault;
pub use keeper::Keeper;
pub use laws_of_histories::{closes_law, in_force_law, order_law};
pub use laws_of_needs::{keepable_law, plannable_law, shortened_law, unchanged_law};
pub use laws_of_plans::{
    kept_plan_law, no_longer_law, someone_law, still_forced_law, tail_kept_law, tick_law,
};
pub use laws_of_steps::{
    adds_law, ask_law, limits_of_events, next_asks_law, once_law, shape_law, state_law,
};
pub use shortened::{ShortNeed, Shortened};
