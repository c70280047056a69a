ghost use Rattle.std.specs.Prelude.{◌≡◌, ◌⊎◌, ◌≤◌, length, not, IfOk};
ghost use Rattle.std.specs.Str.{bytes_eq};
ghost use Rattle.base_disk.specs.Torn.{Torn, IsTornFile};
ghost use Rattle.base_disk.specs.History.{sound_after};
ghost use Rattle.base_disk.specs.Left.{MayStand, MayMake};
ghost use Rattle.base_disk.specs.Memory.{memory_state, held_file, image_of, kept_of};

use crate::MemoryDisk;
use crate::call::{CallMade, DiskCall, Held};
use crate::content::{after_call, copy_of, first_of, overwrite};
use std::alloc::{AllocError, Global};

impl MemoryDisk {
    /// A file that a crash at this moment may leave at `path`, whatever it leaves at the others; `None` for no file. Which one of
    /// them it is, `seed` decides.
    #[tactic(auto, using(crate::proofs::Left::stands_first))]
    pub fn left(&self, alloc: Global, path: &str, seed: u64) -> Result<Option<Held>, AllocError>
        ensures { IfOk result (λ file. MayStand path.now (held_file file) (memory_state self.now)) }
    {
        let mut seen = first_of(alloc, &self.files, path)?;
        let mut left = self.first_left(alloc, path, seed)?;
        let mut sound = true;
        let mut draw = seed;
        for call in &self.calls {
            if is_elsewhere(call, path) {
                continue;
            }
            draw = next_draw(draw);
            left = made_by(alloc, &call.what, sound, &seen, left, draw >> 33)?;
            seen = after_call(alloc, seen, &call.what)?;
            sound = is_sound_after(&call.what, sound);
        }
        Ok(left)
    }

    /// A file that a crash before the first call leaves at `path`: the one that is seen, or the one that is on the disk.
    fn first_left(&self, alloc: Global, path: &str, seed: u64) -> Result<Option<Held>, AllocError>
        ensures { IfOk result (λ file. (held_file file ≡ image_of self.now.files.items path.now) ⊎ (held_file file ≡ kept_of self.now.files.items self.now.kept path.now)) }
    {
        match &self.kept {
            Some(kept) if seed % 2 == 1 => first_of(alloc, kept, path),
            _ => first_of(alloc, &self.files, path),
        }
    }
}

/// Whether a call was made at another path.
fn is_elsewhere(call: &DiskCall, path: &str) -> bool
    ensures { result ≡ not (bytes_eq call.now.path.items path.now) }
{
    call.path.as_slice() != path.as_bytes()
}

/// The next number of a sequence that looks drawn.
fn next_draw(draw: u64) -> u64 {
    draw.wrapping_mul(6_364_136_223_846_793_005)
        .wrapping_add(1_442_695_040_888_963_407)
}

/// Whether the file is sound after a call on it.
fn is_sound_after(what: &CallMade, sound: bool) -> bool
    ensures { result ≡ sound_after what.now sound }
{
    match what {
        CallMade::Write { done, .. } | CallMade::Sync { done } => *done & sound,
        CallMade::Move { done, .. } => *done | sound,
    }
}

/// What a crash in a call or after it makes of the file that one before it would have left.
fn made_by(
    alloc: Global,
    what: &CallMade,
    sound: bool,
    seen: &Option<Held>,
    left: Option<Held>,
    choice: u64,
) -> Result<Option<Held>, AllocError>
    ensures { IfOk result (λ after. MayMake what.now sound (held_file seen.now) (held_file left) (held_file after)) }
{
    match what {
        CallMade::Write { at, bytes, .. } => torn(alloc, left, *at, bytes, choice),
        CallMade::Sync { done } if *done & sound => copy_of(alloc, seen),
        CallMade::Move { mode, bytes, .. } if choice % 2 == 1 => Ok(Some(Held {
            mode: *mode,
            bytes: Vec::from_slice(alloc, bytes)?,
        })),
        _ => Ok(left),
    }
}

/// The file with a piece of what was written, or with other bytes.
fn torn(
    alloc: Global,
    left: Option<Held>,
    at: usize,
    bytes: &[u8],
    choice: u64,
) -> Result<Option<Held>, AllocError>
    ensures { IfOk result (λ after. IsTornFile (Torn at (length bytes.now)) (held_file left) (held_file after)) }
{
    let Some(file) = left else {
        return Ok(None);
    };
    if at > file.bytes.len() {
        return Ok(Some(file));
    }
    let piece = piece_of(alloc, bytes, choice)?;
    overwrite(alloc, Some(file), at, &piece)
}

/// Nothing, a front, all, or other bytes in the place of a front or of all.
fn piece_of(alloc: Global, bytes: &[u8], choice: u64) -> Result<Vec<u8>, AllocError>
    ensures { IfOk result (λ piece. length piece.items ≤ length bytes.now) }
{
    let front = match choice % 3 {
        0 => 0,
        1 => bytes.len() / 2,
        _ => bytes.len(),
    };
    if choice % 5 == 0 {
        return vec![in alloc; (choice % 251) as u8; front];
    }
    Vec::from_slice(alloc, &bytes[..front])
}
