//! What is wrong with an inventory, or legal and probably not meant, in words for people: with its line, entry, key and what helps.
//!
//! The contract for the layers above: [`doubts`] gives exactly the doubts of `specs/Doubts`, of what [`subject_of`] reads of a text
//! (`specs/Subjects`). Where tables and keys stand in a text is `specs/Places`. What is said of a text that is no inventory is that of
//! `specs/FaultWords`, by [`finding_of_fault`], and by [`words_of_fault`] in one line. What is said of a doubt is printing, of which no
//! contract speaks. Begin with `specs/EntryDoubts`, then `all_doubts`.
#![tactic(auto)]

mod all_doubts;
mod doubt_mends;
mod doubt_words;
mod entry_doubts;
mod fault_names;
mod fault_words;
mod finding;
mod judging;
mod limits;
mod mark;
mod naming;
mod place;
mod places;
mod printing;
mod reading;
mod subject;
mod units;
mod what;

pub use all_doubts::doubts;
pub use doubt_words::finding_of;
pub use fault_words::{finding_of_fault, words_of_fault};
pub use finding::{Finding, Severity};
pub use naming::label;
pub use place::{kind_of, line_of};
pub use printing::{push_json, push_line};
pub use reading::{places_of, subject_of};
pub use subject::{Places, Subject};
pub use what::{Doubt, EntryDoubt, Whole};
