//! What a start of `leasekeep serve` finds on the system, and what is said of that: the file that is served and the files of credentials,
//! the limits of the process, its mounts and disks, and what an agent before it has left. It stands on nothing that keeps changes, and is
//! proved beside that.
//!
//! The contract for the layer above: [`read_inventory`] gives what the bytes of FILE say, with what the files of credentials hold that it
//! names (`specs/Whole`), or the exit once it was told why nothing is served (`specs/Refusals`); its parts serve a start whose state
//! folder cannot be used. [`set_aside`] keeps what cannot be read in a journal (`specs/SettingAside`). [`take_over`] gives the file that
//! keeps the ends, and what it kept (`specs/TakingOver`), [`places_for`] how many guests are let in (`specs/Descriptors`), [`own_number`]
//! the number of the agent's own name (`specs/Numbers`), and [`warn_of_disks`] what is said of files for which the loop waits
//! (`specs/Stalls`, `specs/Mounts`). [`desk_of`] is the log with what is said at a start (`specs/Saying`). Of files of the system nothing
//! is known. Begin with `reading`; `served_file` is FILE and `secrets` are the files of credentials.
#![tactic(auto)]

mod aside;
mod descriptors;
mod ends;
mod mounts;
mod reading;
mod said;
mod secrets;
mod served_file;
mod spread;
mod stalls;

pub use aside::set_aside;
pub use descriptors::{Places, places_for, places_within};
pub use ends::{TakenOver, take_over};
pub use reading::{
    Inventories, Sources, read_bytes, read_inventory, refuse_bytes, refuse_written, serve_bytes,
};
pub use said::{desk_of, push, push_each, say_behind};
pub use secrets::SystemSecrets;
pub use served_file::{ServedFile, SystemFile, folder_of};
pub use spread::own_number;
pub use stalls::{MOST_MOUNTS, warn_of_disks};
