ghost use Rattle.std.specs.Prelude.{◌≡◌, ◌-◌, ◌≤◌, ◌<◌, IfSome, length, take, true};
ghost use Rattle.std.specs.Char.{is_ascii_digit};
ghost use Rattle.std.specs.List.{list_all};
ghost use Rattle.std.specs.Str.Parse.{digits_value};
ghost use Rattle.base_moment.specs.declared.moment.TheConstants.{LAST};
ghost use Rattle.vault_inventory.specs.Languages.{full};
ghost use Rattle.vault_inventory.specs.Values.{is_always, need_text};
ghost use Rattle.agent_control.specs.When.{but_last, fixed_of, is_number, last_byte, need_at, seconds_each, span_of, unit_seconds, when_of};

use base_moment::{LAST, Moment, read_rfc3339};
use vault_inventory::Need;

/// Until when an entry is to be needed, as a client says it.
#[derive(Clone, Copy, Debug, PartialEq, Eq)]
pub enum When {
    /// Until a moment, or always.
    Fixed(Need),
    /// So many seconds from the moment at which it is asked for, at most [`LAST`].
    FromNow(u64),
}

impl When {
    /// The need that it is where it is asked for at this moment; `None` where that would end after [`LAST`].
    pub fn need_at(self, now: Moment) -> Option<Need>
        ensures { result ≡ need_at now self }
    {
        match self {
            When::Fixed(need) => Some(need),
            When::FromNow(seconds) => {
                let end = now.get().checked_add(seconds)?;
                Some(Need::Until(Moment::new(end)?))
            }
        }
    }
}

/// What a word says: a moment in seconds since 1970-01-01T00:00:00Z, of 1 to 12 digits; a date and time by RFC 3339; `always`;
/// or a time from now, as `+90`, `+90s`, `+30m`, `+6h` or `+2d`. `None` where it says none of these, or a moment or a time
/// of more than [`LAST`] seconds.
#[tactic(auto, unfolding(crate::specs::When::when_of))]
pub fn read_when(word: &str) -> Option<When>
    ensures { result ≡ when_of word.now }
{
    let bytes = word.as_bytes();
    if !bytes.is_empty() && bytes[0] == b'+' {
        Some(When::FromNow(span(&bytes[1..])?))
    } else {
        fixed(word)
    }
}

// A moment, a date, or `always`.
#[tactic(auto, unfolding(crate::specs::When::fixed_of))]
fn fixed(word: &str) -> Option<When>
    ensures { result ≡ fixed_of word.now }
{
    if is_number(word.as_bytes()) {
        let seconds = seconds_each(word.as_bytes(), 1)?;
        Some(When::Fixed(Need::Until(Moment::new(seconds)?)))
    } else {
        Some(When::Fixed(written_need(word)?))
    }
}

// What an inventory writes: a date, or `always`.
fn written_need(word: &str) -> Option<Need>
    ensures { result ≡ need_text full word.now }
{
    if is_always(word) {
        return Some(Need::Always);
    }
    Some(Need::Until(read_rfc3339(word).ok()?))
}

#[tactic(auto, unfolding(vault_inventory::specs::Values::is_always))]
fn is_always(word: &str) -> bool
    ensures { result ≡ is_always word.now }
{
    word == "always"
}

// How many seconds a number with a unit is, or without one.
#[tactic(auto, unfolding(crate::specs::When::span_of))]
fn span(text: &[u8]) -> Option<u64>
    ensures { result ≡ span_of text.now }
{
    if is_number(text) {
        return seconds_each(text, 1);
    }
    let digits = text.len().saturating_sub(1);
    seconds_each(&text[..digits], unit_seconds(last_byte(text)))
}

// The last byte, and 0 where there is none.
fn last_byte(text: &[u8]) -> u8
    ensures { result ≡ last_byte text.now }
{
    match text.last() {
        Some(byte) => *byte,
        None => 0,
    }
}

// The seconds of a unit, 0 where the letter is none.
fn unit_seconds(letter: u8) -> u64
    ensures value { result ≡ unit_seconds letter }
    ensures within { result ≤ 86400 }
{
    match letter {
        b's' => 1,
        b'm' => 60,
        b'h' => 3_600,
        b'd' => 86_400,
        _ => 0,
    }
}

// A number of so many seconds each, where that is at most `LAST`.
#[tactic(auto, unfolding(crate::specs::When::seconds_each))]
fn seconds_each(text: &[u8], size: u64) -> Option<u64>
    requires { size ≤ 86400 }
    ensures value { result ≡ seconds_each size text.now }
    ensures within { IfSome result (λ n. n ≤ LAST) }
{
    if size == 0 || !is_number(text) {
        return None;
    }
    let seconds = number(text) * size;
    if seconds <= LAST { Some(seconds) } else { None }
}

// Whether these are 1 to 12 digits.
#[tactic(auto, unfolding(crate::specs::When::is_number))]
fn is_number(text: &[u8]) -> bool
    ensures { result ≡ is_number text.now }
{
    !text.is_empty() && text.len() <= 12 && are_digits(text)
}

fn are_digits(text: &[u8]) -> bool
    ensures { result ≡ list_all is_ascii_digit text.now }
{
    text.iter().all(|byte| byte.is_ascii_digit())
}

// The number that at most twelve digits write.
fn number(digits: &[u8]) -> u64
    requires { is_number digits.now ≡ true }
    ensures value { result ≡ digits_value 10 digits.now }
    ensures within { result ≤ 999999999999 }
{
    let mut value: u64 = 0;
    for byte in digits {
        value = value * 10 + (*byte - b'0') as u64;
    }
    value
}
