ghost use Rattle.std.specs.Prelude.{◌≡◌, ◌≤◌, IfSome, slice_index, drop};
ghost use Rattle.base_moment.specs.MomentOf.{two_at, four_at, either_byte_at, after_digits, after_fraction};

/// The byte at a place, 0 past the end.
pub fn byte_at(text: &[u8], at: usize) -> u8
    ensures { result ≡ slice_index text.now at }
{
    text.get(at).copied().unwrap_or(0)
}

/// The number of the two digits from this place on.
#[tactic(auto, unfolding(crate::specs::MomentOf::two_of))]
pub fn two_digits(text: &[u8], at: usize) -> Option<u8>
    requires { at ≤ 1000 }
    ensures value { result ≡ two_at text.now at }
    ensures within { IfSome result (λ n. n ≤ 99) }
{
    let (tens, ones) = (byte_at(text, at), byte_at(text, at + 1));
    if tens.is_ascii_digit() && ones.is_ascii_digit() {
        Some(10 * (tens - b'0') + (ones - b'0'))
    } else {
        None
    }
}

/// The number of the four digits from this place on.
pub fn four_digits(text: &[u8], at: usize) -> Option<u16>
    requires { at ≤ 100 }
    ensures value { result ≡ four_at text.now at }
    ensures within { IfSome result (λ n. n ≤ 9999) }
{
    let high = two_digits(text, at)?;
    let low = two_digits(text, at + 2)?;
    Some(100 * high as u16 + low as u16)
}

/// `None` unless one of two bytes stands at this place.
pub fn mark(text: &[u8], at: usize, one: u8, other: u8) -> Option<()>
    ensures { result ≡ either_byte_at text.now at one other }
{
    let found = byte_at(text, at);
    if found == one || found == other {
        Some(())
    } else {
        None
    }
}

/// What stands from this place on.
pub fn behind(text: &[u8], at: usize) -> &[u8]
    ensures { result.now ≡ drop at text.now }
{
    if at < text.len() { &text[at..] } else { &[] }
}

// What follows the digits at the front.
fn behind_digits(text: &[u8]) -> &[u8]
    ensures { result.now ≡ after_digits text.now }
{
    for (i, byte) in text.iter().enumerate() {
        if !byte.is_ascii_digit() {
            return &text[i..];
        }
    }
    &[]
}

/// What follows the fraction of a second at the front, if there is one.
pub fn behind_fraction(text: &[u8]) -> &[u8]
    ensures { result.now ≡ after_fraction text.now }
{
    if byte_at(text, 0) == b'.' && byte_at(text, 1).is_ascii_digit() {
        behind_digits(behind(text, 2))
    } else {
        text
    }
}
