//! The part that an agent has of a spread.
ghost use Rattle.std.specs.Prelude.{◌≡◌, ◌≤◌};
ghost use Rattle.plan_spread.specs.Parts.{number_of, part_by, part_of_spread};

use sha2::{Digest, Sha256};

/// The number of a name: what the first eight bytes of its SHA-256 (FIPS 180-4) spell, the highest first.
pub fn number_of(name: &[u8]) -> u64
    ensures { result ≡ number_of name.now }
{
    let digest = Sha256::digest(name);
    u64::from_be_bytes([
        digest[0], digest[1], digest[2], digest[3], digest[4], digest[5], digest[6], digest[7],
    ])
}

/// The seconds, 0 to `spread`, that fall to a number: as good as evenly spread over all numbers.
pub fn part_by(number: u64, spread: u32) -> u32
    ensures part { result ≡ part_by number spread }
    ensures most { result ≤ spread }
{
    ((u128::from(number) * (u128::from(spread) + 1)) >> 64) as u32
}

/// The seconds, 0 to `spread`, by which the agent of that name wakes up earlier: always the same for one name, and as good as evenly
/// spread over many names.
pub fn part_of(name: &[u8], spread: u32) -> u32
    ensures part { result ≡ part_of_spread name.now spread }
    ensures most { result ≤ spread }
{
    part_by(number_of(name), spread)
}
