//! The laws of the neighbours of a running agent: what holds of all that a house says and does. Each law is a statement in `specs/` and
//! the contract of a public function without a body, so the check proves it.
//!
//! Of two agents, changes, journals or files that differ in credentials alone the same is said (`specs/Alike`), and the same is decided
//! (`specs/Decided`); and a house beside them does the same (`specs/Heard`, `specs/Keepers`). A turn of the loop tries the log's reader and
//! calls disks a bounded number of times (`specs/Tried`, `specs/Disks`), and whoever is told `ok` has what it has asked for
//! (`specs/Acknowledged`). `Doing.DoesToHouse` of `agent_house` says what a call of the loop does to a house. Begin with `specs/Tried`.
#![tactic(auto)]

mod laws;

pub use laws::{
    a_house_shows_no_credential, a_look_spares_disks, a_turn_spares_disks,
    a_turn_tries_the_reader_little, a_turn_without_a_change_spares_disks, no_credential_decides,
    no_credential_is_said, no_credential_is_told, no_credential_of_a_file_is_said,
    no_kept_credential_shows, whoever_is_told_ok_has_it,
};
