//! What was taken from files of credentials.
ghost use Rattle.std.specs.Prelude.{◌≡◌, IfOk, option_map};
ghost use Rattle.state_changes.specs.Secrets.{is_of, taken_from};

use base_moment::{Name, Text};
use std::alloc::{AllocError, Global};
use std::fmt;

/// What was taken from the file of an entry's credential.
#[derive(Drop)]
pub struct Secret {
    /// The name of the entry.
    pub name: Name,
    /// The path of the file, as the inventory writes it.
    pub file: Text,
    /// A token's own value, or a lease's id.
    pub credential: Text,
}

impl fmt::Debug for Secret {
    /// Shows the name and the file. The credential is secret.
    fn fmt<W: fmt::Write>(&self, f: &mut fmt::Formatter<W>) -> fmt::Result {
        f.debug_struct("Secret")
            .field("name", &self.name)
            .field("file", &self.file)
            .finish_non_exhaustive()
    }
}

impl Secret {
    /// The same once more. The only error is lack of memory.
    pub fn copy(&self) -> Result<Secret, AllocError>
        ensures { IfOk result (λ secret. secret ≡ self.now) }
    {
        Ok(Secret {
            name: self.name.clone()?,
            file: self.file.clone()?,
            credential: self.credential.clone()?,
        })
    }
}

/// The same once more. The only error is lack of memory.
pub fn copy_secrets(alloc: Global, secrets: &[Secret]) -> Result<Vec<Secret>, AllocError>
    ensures { IfOk result (λ copies. copies.items ≡ secrets.now) }
{
    let mut copies = Vec::new(alloc);
    for secret in secrets {
        copies.push(secret.copy()?)?;
    }
    Ok(copies)
}

/// What was taken last from the file of that path for the entry of that name.
#[tactic(auto, unfolding(crate::specs::Secrets::taken_from))]
pub fn taken_from<'a>(secrets: &'a [Secret], name: &[u8], file: &[u8]) -> Option<&'a Secret>
    ensures { option_map (λ s. s.now) result ≡ taken_from secrets.now name.now file.now }
{
    secrets.iter().find(|secret| is_of(name, file, secret))
}

fn is_of(name: &[u8], file: &[u8], secret: &Secret) -> bool
    ensures { result ≡ is_of name.now file.now secret.now }
{
    secret.name.list() == name && secret.file.list() == file
}
