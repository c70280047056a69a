//! Files by their paths: what a program reads of one before it begins.
//!
//! The contract for the layers above: [`Inputs::read`] gives the bytes of the file at a path, all of them where they are known, or
//! says why it does not (`specs/Files.antt`). A run over a file is stated over any such files; [`SystemInputs`] are those of the system.
#![tactic(auto)]

mod disk;
mod inputs;

pub use disk::SystemInputs;
pub use inputs::Inputs;
