ghost use Rattle.std.specs.Prelude.{None};

use crate::inputs::Inputs;
use base_device::{InputFault, read_file};
use base_moment::Text;
use std::alloc::Global;
use std::rt::Files;

/// The files of the system, of which nothing is known before they are read.
#[derive(Debug, Drop)]
pub struct SystemInputs<'a, R> {
    pub rt: &'a R,
}

impl<'a, R: Files + AllocGlobal> Inputs for SystemInputs<'a, R> {
    ghost bytes_at = { λ _ _. None };

    fn read(&mut self, _alloc: Global, path: &str, max: usize) -> Result<Text, InputFault> {
        read_file(self.rt, path, max)
    }
}
