//! The cases that `plays` plays: the steps of a case and its text, the words of steps, and what a play begins with: its inventory, its
//! clocks, its disks and its files of credentials. tests/plays/README.md says how a case is written.
#![tactic(auto)]

mod drawers;
mod ending;
mod fault;
mod places;
mod settings;
mod steps;
mod texts;
mod words;

pub use drawers::{Drawer, Stamping};
pub use ending::Ending;
pub use fault::CaseFault;
pub use places::put;
pub use settings::{BOOT, DiskBefore, ENDS, FILE, Setting, put_file};
pub use steps::{Case, CaseStep, read_case};
pub use words::{Stretch, answer, failing, lane_fault, number, readings, small};
