//! Where a file is.
ghost use Rattle.std.specs.Prelude.{◌≡◌, IfOk};
ghost use Rattle.state_secrets.specs.Credentials.{is_absolute, placed};

use std::alloc::{AllocError, Global};

/// The path of a file: one that does not begin with `/` starts at `folder`, which ends in one, or is empty. The only error is out of
/// memory.
pub fn placed(alloc: Global, folder: &[u8], path: &[u8]) -> Result<Vec<u8>, AllocError>
    ensures { IfOk result (λ whole. whole.items ≡ placed folder.now path.now) }
{
    if is_absolute(path) {
        return Vec::from_slice(alloc, path);
    }
    let mut whole = Vec::from_slice(alloc, folder)?;
    whole.extend_from_slice(path)?;
    Ok(whole)
}

fn is_absolute(path: &[u8]) -> bool
    ensures { result ≡ is_absolute path.now }
{
    !path.is_empty() && path[0] == b'/'
}
