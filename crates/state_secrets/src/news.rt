//! What came of a look at files of credentials.
use crate::looking::SecretTrouble;
use base_moment::Name;

/// What became of a file that was read.
#[derive(Clone, Copy, Debug, PartialEq, Eq)]
pub enum Became {
    /// The entry has what it holds from now on.
    Taken,
    /// The entry has that already.
    Same,
    /// The entry keeps what it had.
    Troubled(SecretTrouble),
}

/// What is said of a file.
#[derive(Clone, Copy, Debug, PartialEq, Eq)]
pub enum SecretWord {
    /// The entry has what it holds from now on.
    Taken,
    /// Nothing is wrong with it any more: the entry has what it holds already.
    Mended,
    /// Something is wrong with it: the entry keeps what it had.
    Kept(SecretTrouble),
    /// Something is wrong with it, and the entry has nothing: it is not kept.
    Without(SecretTrouble),
}

/// The same, and of which entry.
#[derive(Debug, Drop)]
pub struct SecretNews {
    /// The name of the entry.
    pub name: Name,
    /// What is said.
    pub what: SecretWord,
}

/// What came of a look at files of credentials.
#[derive(Debug, Drop)]
pub struct Looked {
    /// What is said of one.
    pub news: Option<SecretNews>,
    /// Whether the look can go on at once.
    pub goes_on: bool,
    /// Whether memory sufficed.
    pub is_enough: bool,
}
