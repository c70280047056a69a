//! Files of credentials that are looked at by their stamps while an agent runs, and read where they changed.
//!
//! The contract for the layers above: [`Look::pass`] goes over rows, at most 64 files a turn, until one is to be read (`specs/Looking`);
//! [`read_held`] reads that one alone, [`secrets_with`] is what is to be held then, and [`seen_after`] and [`news_of`] say when the file is
//! read again and what is said of it (`specs/Outcomes`). What a text holds is in `specs/Credentials`. Begin with `secret_files`, then
//! `looking`, then `outcome`.
#![tactic(auto)]

mod credential;
mod looking;
mod news;
mod outcome;
mod place;
mod secret_files;

pub use credential::{MOST_SECRET, credential_in};
pub use looking::{
    DueFile, FileMark, FileSeen, LOOK_EVERY, Look, Looking, MOST_LOOKS, MOST_MARKS, NEVER, Pass,
    SecretTrouble, Step, is_held, seen_of,
};
pub use news::{Became, Looked, SecretNews, SecretWord};
pub use outcome::{
    LONGEST_PAUSE, has_it, names_file, news_about, news_of, read_held, secrets_with, seen_after,
};
pub use place::placed;
pub use secret_files::{FileStamp, SecretFiles};
