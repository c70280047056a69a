ghost use Rattle.std.specs.Prelude.{◌≡◌, ◌-◌, ◌<◌, ◌≤◌, [], length, IfOk, IfSome, OnOk, vec_len};
ghost use Rattle.std.specs.Result.{result_map_both};
ghost use Rattle.std.specs.Io.KnownBytes.{Keeps, IsAtEnd};
ghost use Rattle.base_device.specs.Failures.{CountsInput};
ghost use Rattle.base_device.specs.declared.limits.TheConstants.{MOST_READS, MOST_ROOM};
ghost use Rattle.base_device.specs.Whole.{IsReadToEnd, MakesAtMost};

use crate::limits::{MOST_READS, MOST_ROOM};
use crate::one_read::{read_more, zeros};
use crate::{InputFault, Source};
use base_moment::Text;
use std::alloc::Global;

/// Reads the whole input where it has at most `max` bytes. It makes at most 4,096 reads, each with room for 65,536
/// bytes, or for what is left up to one byte past `max` where that is less.
///
/// `ReadFailed`: a read failed. `TooLong`: the input has more than `max` bytes, or 4,096 reads did not come to its end.
/// After a fault the source is where it stopped.
pub fn read_all<R: Source>(alloc: Global, source: &mut R, max: usize) -> Result<Text, InputFault>
    ensures read { IfSome (R.seen source.old).input.remaining (λ bytes.
        IsReadToEnd max bytes (R.seen source.old).input.reads_left (R.seen source.new).input.reads_left result) }
    ensures short { IfOk result (λ text. length text ≤ max) }
    ensures end { OnOk result (IsAtEnd (R.seen source.new).input.remaining) }
    ensures reads { MakesAtMost MOST_READS (R.seen source.old).input (R.seen source.new).input }
    ensures output { (R.seen source.new).output ≡ (R.seen source.old).output }
    ensures count { CountsInput result (R.seen source.old).failed_calls (R.seen source.new).failed_calls }
{
    let mut room = zeros(alloc, MOST_ROOM)?;
    let mut bytes = Vec::new(alloc);
    read_to_end(source, &mut room, &mut bytes, max)?;
    Ok(Text::from_vec(bytes))
}

/// Reads the rest of the input after `bytes`, which are empty.
fn read_to_end<R: Source>(
    source: &mut R,
    room: &mut [u8],
    bytes: &mut Vec<u8>,
    max: usize,
) -> Result<(), InputFault>
    requires room { length room.old ≡ MOST_ROOM }
    requires none { bytes.old.items ≡ [] }
    ensures read { IfSome (R.seen source.old).input.remaining (λ whole.
        IsReadToEnd max whole (R.seen source.old).input.reads_left (R.seen source.new).input.reads_left (result_map_both (λ _. bytes.new.items) (λ fault. fault) result)) }
    ensures short { OnOk result (vec_len bytes.new ≤ max) }
    ensures end { OnOk result (IsAtEnd (R.seen source.new).input.remaining) }
    ensures reads { MakesAtMost MOST_READS (R.seen source.old).input (R.seen source.new).input }
    ensures output { (R.seen source.new).output ≡ (R.seen source.old).output }
    ensures count { CountsInput result (R.seen source.old).failed_calls (R.seen source.new).failed_calls }
{
    for _ in 0..MOST_READS {
        if !read_more(source, room, bytes, max)? {
            return Ok(());
        }
        if bytes.len() > max {
            return Err(InputFault::TooLong);
        }
    }
    Err(InputFault::TooLong)
}
