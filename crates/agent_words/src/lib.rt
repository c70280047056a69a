//! What `leasekeep serve` says in words to people: why an inventory is not read or served, and what came of what a client asks for. No
//! text has a credential in it.
//!
//! The contract for the layers above: [`read_to_serve`] gives what is served by the text of an inventory, or the first fault of the start
//! (`specs/Reading`, `specs/Starts`), [`faults_to_serve`] all of them, and [`faults_as_written`] those of what is written alone;
//! [`line_of_fault`] is the line that refuses a start (`specs/Refusing`), and [`why_not_served`] says the same of a file that is read anew
//! (`specs/Noting`). [`gather`] reads the files of credentials that rows name, and says which hold none
//! (`specs/Filling`, `specs/Gathering`). Each text is that of its definition: a reason (`specs/Reasons`), what a client is told
//! (`specs/Telling`), and what of the credential that it brings (`specs/VerdictWords`). Lack of memory is the only other thing that can
//! come of a call. Begin with `specs/Starts`, `specs/Reasons` and `specs/Telling`, then `first_fault`, `reasons` and `client_words`.
#![tactic(auto)]

mod all_faults;
mod client_words;
mod demands;
mod fault;
mod fault_line;
mod first_fault;
mod gathered_secrets;
mod moments;
mod reading;
mod reasons;
mod reread;
mod said;
mod secret_files;
mod unserved;
mod verdict_words;

pub use all_faults::{faults_as_written, faults_to_serve};
pub use client_words::{
    add_line, drop_line, need_line, need_reply, refusal_for, reload_line, replace_line, reply_to,
    settle_line, why_not_kept,
};
pub use demands::Demands;
pub use fault::StartFault;
pub use fault_line::line_of_fault;
pub use first_fault::is_bare_row;
pub use gathered_secrets::{Gathered, gather};
pub use moments::{moment_word, now_of, second_of};
pub use reading::{read_to_serve, wide};
pub use reasons::{after, disk_words, file_words, inventory_words, unread_words};
pub use reread::Reread;
pub use said::{About, SaidLine};
pub use unserved::why_not_served;
pub use verdict_words::{endless_text, status_text, why_endless, why_later, why_refused};
