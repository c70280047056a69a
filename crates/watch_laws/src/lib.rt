//! The laws of the Watch: what holds of every list of events that the machine of `watch_machine` is handed, and of changes of what it
//! watches among them, in words that do not name its steps. Each law is a statement in `specs/` and the contract of a public function
//! without a body, so the check proves it.
//!
//! `History.IsRun` of `watch_machine` says what may happen to it. Begin with `specs/Time`.
#![tactic(auto)]

mod laws_of_absence;
mod laws_of_beginnings;
mod laws_of_calm;
mod laws_of_changes;
mod laws_of_clocks;
mod laws_of_ends;
mod laws_of_load;
mod laws_of_margins;
mod laws_of_needs;
mod laws_of_outages;
mod laws_of_pace;
mod laws_of_partial;
mod laws_of_pauses;
mod laws_of_presence;
mod laws_of_recovery;
mod laws_of_rounds;
mod laws_of_starts;
mod laws_of_time;
mod laws_of_told;
mod laws_of_tops;
mod laws_of_waiting;

pub use laws_of_absence::{held_law, hold_law, spared_law};
pub use laws_of_beginnings::{begin_law, few_law, lookup_law};
pub use laws_of_calm::{calm_law, next_moment_law, round_of_plan_law};
pub use laws_of_changes::change_law;
pub use laws_of_clocks::{clocks_law, date_law};
pub use laws_of_ends::never_past_law;
pub use laws_of_load::{load_law, spaced_law, width_law};
pub use laws_of_margins::{counted_law, granted_law, in_plan_law, time_law};
pub use laws_of_needs::{called_law, needed_law};
pub use laws_of_outages::{grant_law, kill_law, left_law, outage_law};
pub use laws_of_pace::pace_law;
pub use laws_of_partial::{hung_law, once_law, partial_law, patience_law};
pub use laws_of_pauses::{doubled_law, failed_law, failure_law, pause_law};
pub use laws_of_presence::{away_law, back_law};
pub use laws_of_recovery::recovery_law;
pub use laws_of_rounds::{asks_law, hope_law, round_law};
pub use laws_of_starts::{known_first_law, line_law, soon_law, start_law};
pub use laws_of_time::{ahead_law, early_law, press_law};
pub use laws_of_told::{told_law, written_law};
pub use laws_of_tops::{ceiling_law, last_try_law, top_law, topped_law};
pub use laws_of_waiting::{minded_law, owed_law, retry_law, wait_law};
