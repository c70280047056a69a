//! What the files of credentials hold, for entries that name them.
ghost use Rattle.std.specs.Prelude.{◌≡◌, ◌++◌, List, OnOk, IfOk, ℕ};
ghost use Rattle.agent_words.specs.Gathering.{AreGathered, Gives, line_given, secret_in, unheld_line};

use crate::fault::StartFault;
use crate::reasons::after;
use crate::secret_files::credential_at;
use base_files::Inputs;
use base_moment::Text;
use state_changes::{Row, Secret};
use std::alloc::{AllocError, Global};

/// What files of credentials hold, and what is said of those that hold none.
#[derive(Drop)]
pub struct Gathered {
    /// What each file holds that holds a credential.
    pub secrets: Vec<Secret>,
    /// What is said of each entry whose file holds none.
    pub said: Vec<Text>,
}

/// What the files hold that these rows name, and a line for each that holds no credential. The only error is out of memory.
pub fn gather<I: Inputs>(
    alloc: Global,
    rows: &[Row],
    folder: &[u8],
    inputs: &mut I,
) -> Result<Gathered, AllocError>
    ensures gathered { IfOk result (λ gathered. AreGathered (I.bytes_at inputs.old) folder.now rows.now gathered.secrets.items gathered.said.items) }
    ensures same { (path : List ℕ) → I.bytes_at inputs.new path ≡ I.bytes_at inputs.old path }
{
    let mut secrets = Vec::new(alloc);
    let mut said = Vec::new(alloc);
    for row in rows {
        put(given(alloc, row, folder, inputs)?, &mut secrets, &mut said)?;
    }
    Ok(Gathered { secrets, said })
}

// Appends what a row gives.
fn put(
    gift: Option<Result<Secret, Text>>,
    secrets: &mut Vec<Secret>,
    said: &mut Vec<Text>,
) -> Result<(), AllocError>
    ensures secrets { OnOk result (secrets.new.items ≡ secrets.old.items ++ secret_in gift) }
    ensures said { OnOk result (said.new.items ≡ said.old.items ++ line_given gift) }
{
    match gift {
        None => {}
        Some(Ok(secret)) => secrets.push(secret)?,
        Some(Err(line)) => said.push(line)?,
    }
    Ok(())
}

// What the file of a row holds, or the line that says that it holds no credential; `None` where it names no file.
fn given<I: Inputs>(
    alloc: Global,
    row: &Row,
    folder: &[u8],
    inputs: &mut I,
) -> Result<Option<Result<Secret, Text>>, AllocError>
    ensures given { IfOk result (Gives (I.bytes_at inputs.old) folder.now row.now) }
    ensures same { (other : List ℕ) → I.bytes_at inputs.new other ≡ I.bytes_at inputs.old other }
{
    let Some(path) = &row.file else {
        return Ok(None);
    };
    match credential_at(alloc, folder, path.list(), inputs) {
        Ok(credential) => Ok(Some(Ok(Secret {
            name: row.name.clone()?,
            file: path.clone()?,
            credential,
        }))),
        Err(StartFault::OutOfMemory) => Err(AllocError),
        Err(_) => Ok(Some(Err(unheld_line(alloc, row.name.list())?))),
    }
}

// The line about an entry whose file holds no credential.
fn unheld_line(alloc: Global, name: &[u8]) -> Result<Text, AllocError>
    ensures { IfOk result (λ line. line ≡ unheld_line name.now) }
{
    after(
        alloc,
        name,
        b" is not kept: its file holds no credential; write it there",
    )
}
