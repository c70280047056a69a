ghost use Rattle.std.specs.Prelude.{◌≡◌, ◌≤◌, ◌<◌, IsTrue, length, take, true};
ghost use Rattle.std.specs.Char.{is_ascii_digit};
ghost use Rattle.std.specs.List.{list_all};
ghost use Rattle.std.specs.Str.Parse.{digits_value};
ghost use Rattle.vault_inventory.specs.Durations.{after_part, digits_before, duration_of_text, has_part, part_seconds};

/// The seconds of a text such as "90m" or "1h30m": one unit or more, of `d`, `h`, `m` and `s` in this order, each with a number
/// of 1 to 10 digits. `None` where it is none.
#[tactic(auto, unfolding(crate::specs::Durations::duration_of_text))]
pub fn read_duration(text: &[u8]) -> Option<u64>
    ensures { result ≡ duration_of_text text.now }
{
    let hours = after_part(text, b'd');
    let minutes = after_part(hours, b'h');
    let seconds = after_part(minutes, b'm');
    if text.is_empty() || !after_part(seconds, b's').is_empty() {
        return None;
    }
    let days = part_seconds(text, b'd', 86_400);
    let hours = part_seconds(hours, b'h', 3_600);
    let minutes = part_seconds(minutes, b'm', 60);
    Some(days + (hours + (minutes + part_seconds(seconds, b's', 1))))
}

// What follows the number of this unit, if one stands at the front.
#[tactic(auto, unfolding(crate::specs::Durations::after_part))]
fn after_part(text: &[u8], letter: u8) -> &[u8]
    ensures { result.now ≡ after_part letter text.now }
{
    if has_part(text, letter) {
        &text[digits_before(text) + 1..]
    } else {
        text
    }
}

// What the number of this unit is worth, 0 where none stands at the front.
#[tactic(auto, unfolding(crate::specs::Durations::part_seconds))]
fn part_seconds(text: &[u8], letter: u8, size: u64) -> u64
    requires { size ≤ 86400 }
    ensures value { result ≡ part_seconds letter size text.now }
    ensures within { result ≤ 1000000000000000 }
{
    if has_part(text, letter) {
        number(&text[..digits_before(text)]) * size
    } else {
        0
    }
}

// Whether a number of 1 to 10 digits and this letter stand at the front.
#[tactic(auto, unfolding(crate::specs::Durations::has_part))]
fn has_part(text: &[u8], letter: u8) -> bool
    ensures value { result ≡ has_part letter text.now }
    ensures short { IsTrue result → digits_before text.now ≤ 10 }
    ensures within { IsTrue result → digits_before text.now < length text.now }
{
    let digits = digits_before(text);
    0 < digits && digits <= 10 && digits < text.len() && text[digits] == letter
}

// How many digits stand at the front.
fn digits_before(text: &[u8]) -> usize
    ensures value { result ≡ digits_before text.now }
    ensures within { result ≤ length text.now }
    ensures digits { list_all is_ascii_digit (take result text.now) ≡ true }
{
    for (i, byte) in text.iter().enumerate() {
        if !byte.is_ascii_digit() {
            return i;
        }
    }
    text.len()
}

// The number that at most ten digits write.
fn number(digits: &[u8]) -> u64
    requires digits { list_all is_ascii_digit digits.now ≡ true }
    requires short { length digits.now ≤ 10 }
    ensures value { result ≡ digits_value 10 digits.now }
    ensures within { result ≤ 9999999999 }
{
    let mut value: u64 = 0;
    for byte in digits {
        value = value * 10 + (*byte - b'0') as u64;
    }
    value
}
