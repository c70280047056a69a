//! The renewal rule and the slow replay: what any list of wake-ups does to a forest.
//!
//! The contract for the layers above: `granted_end` is the renewal rule, `ends_after` its fold over wake-ups, `keeps`
//! whether every entry lives until its need, `reach` how far renewals can lead; each exactly by the definitions of
//! `specs/`, against which every planner and checker is judged. A [`Run`] stands for wake-ups at equal distances, each with
//! its force (`Runs` of `specs/`): planners give runs, checkers read them. The laws of these definitions stand in `laws` and
//! `laws_of_rounds`. Begin with `wake`.
#![tactic(auto)]

mod force;
mod laws;
mod laws_of_rounds;
mod limit;
mod replay;
mod rule;
mod run;
mod wake;

pub use force::Force;
pub use laws::{
    enough_law, existence_law, forced_law, least_margin_law, margin_law, schedule_law, unique_law,
    unkeepable_law,
};
pub use laws_of_rounds::{
    fewest_requests_law, fewest_times_law, later_start_law, same_asks_law, same_requests_law,
    tail_law,
};
pub use limit::{LIMIT, limit_law};
pub use replay::{ends_after, keeps};
pub use rule::{granted_end, reach};
pub use run::Run;
pub use wake::{Wake, WakeFault};
