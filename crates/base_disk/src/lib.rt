//! A disk: files at paths that are read, written, synced and replaced, and what a crash at any moment may leave of them.
//!
//! The contract for the layers above is the trait [`Disk`] over one record, `specs/State.antt`; [`write_synced`]
//! changes a file, and [`replace`] makes one anew.
//! Begin with `specs/Image.antt` and `specs/Torn.antt`, what a crash makes of a call that was under way.
#![tactic(auto)]

mod call;
mod content;
mod crash;
mod disk;
mod failing;
mod fault;
mod lock;
mod memory;
mod places;
mod replacing;
mod synced;
mod system;

pub use call::{CallMade, DiskCall, FileDraft, Held, Stored};
pub use disk::{Disk, DiskStamp};
pub use failing::Failing;
pub use fault::{DiskFault, DiskTrouble};
pub use lock::Lock;
pub use memory::MemoryDisk;
pub use replacing::replace;
pub use synced::write_synced;
pub use system::{FILE_MODE, FOLDER_MODE, SystemDisk};
