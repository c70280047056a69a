ghost use Rattle.std.specs.Prelude.{◌≡◌, ℕ, List, Option};
ghost use Rattle.base_files.specs.Files.{FileIsRead};

use base_device::InputFault;
use base_moment::Text;
use std::alloc::Global;

/// Files, by their paths.
pub trait Inputs {
    /// The bytes of the file at a path, where they are known.
    ghost bytes_at: { Self → List ℕ → Option (List ℕ) };

    /// The bytes of the file at `path`, where it has at most `max`. Reading changes no file.
    ///
    /// `ReadFailed`: it can't be opened, or a read failed. `TooLong`: it has more than `max` bytes, or too many reads did not
    /// come to its end. `OutOfMemory`: opening or reading it was refused memory.
    fn read(&mut self, alloc: Global, path: &str, max: usize) -> Result<Text, InputFault>
        ensures read { FileIsRead (bytes_at self.old path.now) max result }
        ensures same { (other : List ℕ) → bytes_at self.new other ≡ bytes_at self.old other };
}
