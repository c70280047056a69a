ghost use Rattle.std.specs.Prelude.{◌≡◌, IfOk};

use base_moment::{Name, Text};
use plan_forest::Kind;
use std::alloc::AllocError;
use std::fmt;
use vault_inventory::{Need, Terms};

/// An entry of an inventory as its table writes it: it names the token over it.
#[derive(Drop)]
pub struct Row {
    /// The name, which no other row has.
    pub name: Name,
    pub kind: Kind,
    /// The name of the token that this one is a child of, or that the lease belongs to; `None` for an orphan.
    pub parent: Option<Name>,
    /// Whether its issue and its end are written; where they are not, both are 0, and a lookup tells them.
    pub is_told: bool,
    /// The moment at which it ends unless it is renewed, in seconds since 1970-01-01T00:00:00Z.
    pub end: u64,
    /// Whether it can be renewed at all.
    pub renewable: bool,
    /// The terms on which it is renewed, with its issue.
    pub terms: Terms,
    /// Until when it is needed.
    pub need: Need,
    /// What is sent for it: a token's own value, or a lease's id. The name stands for one that is not written.
    pub credential: Text,
    /// The path of the file that holds its credential, if one is written.
    pub file: Option<Text>,
}

impl fmt::Debug for Row {
    /// Shows the name and the kind. The credential is secret.
    fn fmt<W: fmt::Write>(&self, f: &mut fmt::Formatter<W>) -> fmt::Result {
        f.debug_struct("Row")
            .field("name", &self.name)
            .field("kind", &self.kind)
            .finish_non_exhaustive()
    }
}

impl Row {
    /// Another row with the same fields. The only error is out of memory.
    pub fn copy(&self) -> Result<Row, AllocError>
        ensures { IfOk result (λ row. row ≡ self.now) }
    {
        Ok(Row {
            name: self.name.clone()?,
            kind: self.kind,
            parent: copy_if(&self.parent)?,
            is_told: self.is_told,
            end: self.end,
            renewable: self.renewable,
            terms: self.terms,
            need: self.need,
            credential: self.credential.clone()?,
            file: copy_if(&self.file)?,
        })
    }
}

/// Another text of the same bytes, where there is one.
pub(crate) fn copy_if(text: &Option<Text>) -> Result<Option<Text>, AllocError>
    ensures { IfOk result (λ copy. copy ≡ text.now) }
{
    match text {
        None => Ok(None),
        Some(text) => Ok(Some(text.clone()?)),
    }
}
