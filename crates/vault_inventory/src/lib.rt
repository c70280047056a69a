//! The inventory: the tokens and leases to keep, as a TOML document lists them.
//!
//! The contract for the layers above: [`read`] gives the forest, the credentials and the terms that the definition
//! Inventory gives for the document's tree, or its first fault; [`Inventory`] has one credential and one set of terms for
//! each entry of its forest, of one kind no credential twice, and credentials that can be sent. Begin with `document`, then
//! `row`.
#![tactic(auto)]

mod document;
mod draft;
mod duration;
mod fault;
mod inventory;
mod key;
mod known;
mod laws;
mod limits;
mod lookup;
mod need;
mod note;
mod register;
mod row;
mod served;
mod terms;
mod value;

pub use document::{read, read_document, read_known, read_served};
pub use fault::InvFault;
pub use inventory::{Credentials, Inventory};
pub use key::Key;
pub use laws::{
    credentials_are_sendable, durations_are_read, faults_are_first, inventories_are_forests,
    inventories_are_written, limits_of_inventories, secrets_stay_in_credentials,
    strict_inventories_mean_the_same,
};
pub use limits::{CREDENTIAL_MAX, MOST_INVENTORY, PATH_MAX, SPAN_MAX, STEP_ABSENT, SYSTEM_MAX};
pub use lookup::{LookupFault, told_terms};
pub use need::Need;
pub use note::EntryNote;
pub use served::ServedInventory;
pub use terms::Terms;
