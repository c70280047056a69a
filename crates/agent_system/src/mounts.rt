//! Which devices are file systems in memory, by what Linux tells of its mounts.
ghost use Rattle.std.specs.Prelude.{◌≡◌, ◌≤◌, ◌-◌, ◌^◌, bytes_eq, codes};
ghost use Rattle.base_words.specs.Pieces.{words};
ghost use Rattle.agent_system.specs.Mounts.{device_in, device_number, is_device, is_in_memory, is_memory, is_memory_on, second, third, type_in};

use base_words::{cut, keyword, number_up_to, two_pieces};

/// Whether files on the device of this number lie in memory. `mounts` is the text of /proc/self/mountinfo.
#[tactic(auto, unfolding(crate::specs::Mounts::is_in_memory))]
pub(crate) fn is_in_memory(mounts: &[u8], device: u64) -> bool
    ensures { result ≡ is_in_memory device mounts.now }
{
    let mut rest = mounts;
    while let Some((line, lines)) = cut(rest, b'\n') {
        if is_memory_on(line, device) {
            return true;
        }
        rest = lines;
    }
    is_memory_on(rest, device)
}

// Whether a line is of a mount of this device, whose files lie in memory.
#[tactic(auto, unfolding(crate::specs::Mounts::is_memory_on))]
fn is_memory_on(line: &[u8], device: u64) -> bool
    ensures { result ≡ is_memory_on device line.now }
{
    is_device(third(line), device) && is_memory(type_in(line))
}

// Whether a word writes the device of this number.
fn is_device(word: &[u8], device: u64) -> bool
    ensures { result ≡ is_device device (device_in word.now) }
{
    match device_in(word) {
        None => false,
        Some(number) => number == device,
    }
}

// The number of the device that a word writes.
fn device_in(word: &[u8]) -> Option<u64>
    ensures { result ≡ device_in word.now }
{
    let (major, minor) = two_pieces(word, b':')?;
    let major = number_up_to(major, u64::from(u32::MAX))?;
    let minor = number_up_to(minor, u64::from(u32::MAX))?;
    Some(device_number(major, minor))
}

// The number of a device, as stat(2) gives it.
fn device_number(major: u64, minor: u64) -> u64
    requires major { major ≤ 2 ^ 32 - 1 }
    requires minor { minor ≤ 2 ^ 32 - 1 }
    ensures { result ≡ device_number major minor }
{
    minor % 256 + major % 4096 * 256 + minor / 256 * 1_048_576 + major / 4096 * 17_592_186_044_416
}

// The third word of a line, and an empty one where it has no more than two.
fn third(line: &[u8]) -> &[u8]
    ensures { result.now ≡ third (words line.now) }
{
    match cut(line, b' ') {
        None => &[],
        Some((_, rest)) => second(rest),
    }
}

// The second one, and an empty one where it has no more than one.
fn second(line: &[u8]) -> &[u8]
    ensures { result.now ≡ second (words line.now) }
{
    match cut(line, b' ') {
        None => &[],
        Some((_, rest)) => keyword(rest),
    }
}

// The word after the dash, and an empty one where there is none.
fn type_in(line: &[u8]) -> &[u8]
    ensures { result.now ≡ type_in (words line.now) }
{
    let mut rest = line;
    while let Some((word, words)) = cut(rest, b' ') {
        if is_dash(word) {
            return keyword(words);
        }
        rest = words;
    }
    &[]
}

fn is_dash(word: &[u8]) -> bool
    ensures { result ≡ bytes_eq word.now (codes "-") }
{
    word == b"-".as_slice()
}

// Whether files on a file system of this type lie in memory.
fn is_memory(kind: &[u8]) -> bool
    ensures { result ≡ is_memory kind.now }
{
    kind == b"tmpfs".as_slice() || kind == b"ramfs".as_slice()
}
