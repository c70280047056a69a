//! What a serving agent keeps over a restart: the changes that clients give, in its state folder, and what files of credentials hold.
//!
//! The contract for the layer above: [`Keeping`] is what is asked of whoever keeps changes, and each call is known by what it was asked
//! for and what came of it (`specs/Keeping`). A [`Ledger`] keeps them in a state on a disk (`specs/Ledgers`): a change that it takes holds
//! over a restart, and one that it refuses leaves all as it was (`specs/Untouched`). The credential that a change brings is looked up
//! first, by itself (`specs/Candidates`, `specs/Inquiries`), and so is what a file holds before it is taken (`specs/Takings`), of as many
//! files at once as there are askers (`specs/Askers`). At a start it is taken unless it may not go together (`specs/Shared`). Why something
//! is not kept is said in exact words (`specs/Reasons`). Where its folder cannot be used at the start a ledger comes later: [`Late`]
//! (`specs/Lates`), and what opens it records the needs that were given meanwhile (`specs/Openings`). Begin with `specs/Keeping` and
//! `specs/Ledgers`, then `keeping` and `ledger`.
#![tactic(auto)]

mod asked_file;
mod asker;
mod candidates;
mod inquiry;
mod keeping;
mod late;
mod ledger;
mod opening;
mod reasons;
mod secret_changes;
mod shared;

pub use asked_file::AskedFile;
pub use asker::{Asker, FileWord};
pub use keeping::{FileLook, KeepNews, Keeping, LookedUp};
pub use late::{Late, Shut, TRY_FOLDER};
pub use ledger::Ledger;
pub use opening::{NeedMeanwhile, OpenedLedger, Opening};
