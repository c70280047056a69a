//! The number of the agent's own name.
ghost use Rattle.std.specs.Prelude.{IfOk, option_copied};
ghost use Rattle.agent_system.specs.Numbers.{IsNumber, IsOwnName};

use base_device::InputFault;
use base_files::Inputs;
use plan_spread::number_of;
use std::alloc::{AllocError, Global};

/// Where Linux tells the machine's name.
const HOST_NAME: &str = "/proc/sys/kernel/hostname";

/// The bytes of a machine's name at most, with its line feed.
const MOST_HOST_NAME: usize = 256;

/// The number of this agent's name, by which it has its part of a spread, and its margin behind another. Without a name, that is the
/// machine's name and the path of its inventory, with a colon between them. The only error is out of memory.
#[tactic(auto, using(crate::proofs::Numbers::is_number))]
pub fn own_number<I: Inputs>(
    alloc: Global,
    inputs: &mut I,
    name: Option<&str>,
    file: &str,
) -> Result<u64, AllocError>
    ensures { IfOk result (IsNumber (option_copied name.entry) file.now) }
{
    match name {
        Some(name) => Ok(number_of(name.as_bytes())),
        None => Ok(number_of(&own_name(alloc, inputs, file)?)),
    }
}

#[tactic(auto, using(crate::proofs::Numbers::is_own))]
fn own_name<I: Inputs>(alloc: Global, inputs: &mut I, file: &str) -> Result<Vec<u8>, AllocError>
    ensures { IfOk result (λ name. IsOwnName file.now name.items) }
{
    let mut name = host_name(alloc, inputs)?;
    name.push(b':')?;
    name.extend_from_slice(file.as_bytes())?;
    Ok(name)
}

/// The machine's name, or nothing where it cannot be read.
fn host_name<I: Inputs>(alloc: Global, inputs: &mut I) -> Result<Vec<u8>, AllocError> {
    match inputs.read(alloc, HOST_NAME, MOST_HOST_NAME) {
        Ok(text) => Vec::from_slice(alloc, text.list().trim_ascii()),
        Err(InputFault::OutOfMemory) => Err(AllocError),
        Err(_) => Ok(Vec::new(alloc)),
    }
}
