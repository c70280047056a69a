ghost use Rattle.std.specs.Prelude.{◌≡◌, ◌++◌, ◌∷◌, IfErr, IfOk, string_bytes};
ghost use Rattle.state_keeping.specs.Places.{IsWhyNoPlaces, PlacesAreApart, in_folder, is_inside, places_of};

use crate::fault::PathsFault;
use std::alloc::{AllocError, Global};
use std::marker::Model;

/// The paths of what an agent keeps: the inventory's file, FILE, and the files of its state folder. No two are one.
#[derive(Debug, Drop)]
pub struct Paths {
    file: String,
    journal: String,
    copy: String,
    aside: String,
    lock: String,
}

impl Model for Paths {
    ghost use Rattle.std.specs.Prelude.{string_bytes};
    ghost use Rattle.state_keeping.specs.Places.{Places, PlacesAreApart};

    ghost Value = { Places };

    ghost view = { λ p. record { file = string_bytes p.file; journal = string_bytes p.journal; copy = string_bytes p.copy; aside = string_bytes p.aside; lock = string_bytes p.lock } };

    ghost invariant = { λ p. PlacesAreApart (record { file = string_bytes p.file; journal = string_bytes p.journal; copy = string_bytes p.copy; aside = string_bytes p.aside; lock = string_bytes p.lock }) };
}

impl Paths {
    /// FILE, and `journal`, `copy`, `journal.set-aside` and `lock` in FOLDER. Two paths count as one where they have the same bytes.
    ///
    /// # Errors
    ///
    /// `InFolder`, FILE is one of those; and `OutOfMemory`.
    pub fn of(alloc: Global, file: &str, folder: &str) -> Result<Paths, PathsFault>
        ensures made { IfOk result (λ paths. paths ≡ places_of file.now folder.now) }
        ensures refused { IfErr result (IsWhyNoPlaces (places_of file.now folder.now)) }
    {
        let journal = in_folder(alloc, folder, "journal")?;
        let copy = in_folder(alloc, folder, "copy")?;
        let aside = in_folder(alloc, folder, "journal.set-aside")?;
        let lock = in_folder(alloc, folder, "lock")?;
        if file == journal.as_str()
            || file == copy.as_str()
            || file == aside.as_str()
            || file == lock.as_str()
        {
            return Err(PathsFault::InFolder);
        }
        Ok(Paths {
            file: String::from_str(alloc, file)?,
            journal,
            copy,
            aside,
            lock,
        })
    }

    /// The inventory's file.
    pub fn file(&self) -> &str
        ensures value { result.now ≡ self.now.file }
        ensures apart { PlacesAreApart self.now }
    {
        self.file.as_str()
    }

    /// The journal of the changes.
    pub fn journal(&self) -> &str
        ensures value { result.now ≡ self.now.journal }
        ensures apart { PlacesAreApart self.now }
    {
        self.journal.as_str()
    }

    /// The last good copy of FILE.
    pub fn copy(&self) -> &str
        ensures value { result.now ≡ self.now.copy }
        ensures apart { PlacesAreApart self.now }
    {
        self.copy.as_str()
    }

    /// The damaged lines of the journal.
    pub fn aside(&self) -> &str
        ensures value { result.now ≡ self.now.aside }
        ensures apart { PlacesAreApart self.now }
    {
        self.aside.as_str()
    }

    /// The file whose lock the agent holds.
    pub fn lock(&self) -> &str
        ensures value { result.now ≡ self.now.lock }
        ensures apart { PlacesAreApart self.now }
    {
        self.lock.as_str()
    }
}

// The path of a file of that name in a folder.
fn in_folder(alloc: Global, folder: &str, name: &str) -> Result<String, AllocError>
    ensures { IfOk result (λ path. string_bytes path ≡ in_folder folder.now name.now) }
{
    let mut path = String::from_str(alloc, folder)?;
    path.push('/')?;
    path.push_str(name)?;
    Ok(path)
}
