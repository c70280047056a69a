ghost use Rattle.std.specs.Prelude.{◌≡◌, ◌≤◌, ◌+◌, ◌++◌, length, take, drop, IfOk, OnOk};
ghost use Rattle.base_disk.specs.Image.{overwritten, with_bytes};
ghost use Rattle.base_disk.specs.History.{file_after};
ghost use Rattle.base_disk.specs.Memory.{image_of, held_file};

use crate::call::{CallMade, Held, Stored};
use std::alloc::{AllocError, Global};

/// The first of these files at a path.
pub(crate) fn first_of(
    alloc: Global,
    files: &[Stored],
    path: &str,
) -> Result<Option<Held>, AllocError>
    ensures { IfOk result (λ file. held_file file ≡ image_of files.now path.now) }
{
    for stored in files {
        if stored.path.as_slice() == path.as_bytes() {
            return Ok(Some(Held {
                mode: stored.file.mode,
                bytes: Vec::from_slice(alloc, &stored.file.bytes)?,
            }));
        }
    }
    Ok(None)
}

/// The file after a call on it.
pub(crate) fn after_call(
    alloc: Global,
    file: Option<Held>,
    what: &CallMade,
) -> Result<Option<Held>, AllocError>
    ensures { IfOk result (λ after. held_file after ≡ file_after what.now (held_file file)) }
{
    match what {
        CallMade::Move { mode, bytes, done } if *done => Ok(Some(Held {
            mode: *mode,
            bytes: Vec::from_slice(alloc, bytes)?,
        })),
        CallMade::Write { at, bytes, done } => {
            let taken = if *done {
                bytes.as_slice()
            } else {
                &bytes[..bytes.len() / 2]
            };
            overwrite(alloc, file, *at, taken)
        }
        _ => Ok(file),
    }
}

/// The file with these bytes from an offset on.
pub(crate) fn overwrite(
    alloc: Global,
    file: Option<Held>,
    at: usize,
    bytes: &[u8],
) -> Result<Option<Held>, AllocError>
    ensures { IfOk result (λ after. held_file after ≡ with_bytes (overwritten at bytes.now) (held_file file)) }
{
    let Some(
        Held {
            mode,
            bytes: mut held,
        },
    ) = file
    else {
        return Ok(None);
    };
    let end = at.saturating_add(bytes.len()).min(held.len());
    let rest = Vec::from_slice(alloc, &held[end..])?;
    held.truncate(at);
    held.extend_from_slice(bytes)?;
    held.extend_from_slice(&rest)?;
    Ok(Some(Held { mode, bytes: held }))
}

/// The same file.
pub(crate) fn copy_of(alloc: Global, file: &Option<Held>) -> Result<Option<Held>, AllocError>
    ensures { IfOk result (λ copy. held_file copy ≡ held_file file.now) }
{
    let Some(held) = file else {
        return Ok(None);
    };
    Ok(Some(Held {
        mode: held.mode,
        bytes: Vec::from_slice(alloc, &held.bytes)?,
    }))
}
