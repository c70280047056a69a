ghost use Rattle.std.specs.Prelude.{◌≡◌, IfOk};

use base_moment::Text;
use std::alloc::{AllocError, Global};
use std::marker::Model;

/// The lock of a file, which only a disk gives. Contracts see the path of the file.
#[derive(Debug, Drop)]
pub struct Lock {
    path: Text,
}

impl Model for Lock {
    ghost use Rattle.std.specs.Prelude.{List, ℕ};

    ghost Value = { List ℕ };

    ghost view = { λ l. l.path };
}

impl Lock {
    /// The lock of the file at that path. The only error is out of memory.
    pub(crate) fn of(alloc: Global, path: &str) -> Result<Lock, AllocError>
        ensures { IfOk result (λ lock. lock ≡ path.now) }
    {
        Ok(Lock {
            path: Text::of(alloc, path.as_bytes())?,
        })
    }
}
