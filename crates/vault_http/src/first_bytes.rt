ghost use Rattle.std.specs.Prelude.{◌≡◌, take};

/// The first `max` bytes, or all where they are fewer.
pub(crate) fn front_of(bytes: &[u8], max: usize) -> &[u8]
    ensures { result.now ≡ take max bytes.now }
{
    if bytes.len() > max {
        &bytes[..max]
    } else {
        bytes
    }
}
