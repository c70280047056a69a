ghost use Rattle.std.specs.Prelude.{◌≡◌, ◌≤◌, ◌++◌, ℕ, IfSome, OnErr, OnOk, Some, None, decimal, true, nat_le, if◌then◌else◌};
ghost use Rattle.std.specs.Char.{is_ascii_digit};
ghost use Rattle.std.specs.List.{list_all};
ghost use Rattle.std.specs.Str.Parse.{digits_value};
ghost use Rattle.base_words.specs.Numbers.{is_spelled, number_up_to};

use std::alloc::{AllocError, Global};

/// The number that a word spells in decimal, where it is at most `most`. A number has one spelling: digits alone, without
/// zeros in front, and `0` for 0. `None` for every other word.
pub fn number_up_to(word: &[u8], most: u64) -> Option<u64>
    ensures value { result ≡ number_up_to most word.now }
    ensures within { IfSome result (λ n. n ≤ most) }
    ensures spelled { IfSome result (λ n. word.now ≡ decimal n) }
    ensures none { result ≡ None → (n : ℕ) → n ≤ most → word.now ≡ decimal n → ⊥ }
{
    spelled_number(word, most)
}

/// Appends a number in its one spelling.
///
/// The only error is out of memory, which leaves the text as it was.
pub fn push_number(alloc: Global, number: u64, text: &mut Vec<u8>) -> Result<(), AllocError>
    ensures appended { OnOk result (text.new.items ≡ text.old.items ++ decimal number) }
    ensures unchanged { OnErr result (text.new.items ≡ text.old.items) }
{
    let digits = number.to_string(alloc)?;
    text.extend_from_slice(digits.as_bytes())
}

#[tactic(auto, unfolding(crate::specs::Numbers::number_up_to))]
fn spelled_number(word: &[u8], most: u64) -> Option<u64>
    ensures value { result ≡ number_up_to most word.now }
    ensures within { IfSome result (λ n. n ≤ most) }
{
    if is_spelled(word) {
        value_of(word, most)
    } else {
        None
    }
}

/// The value of decimal digits, where it is at most `most`.
fn value_of(digits: &[u8], most: u64) -> Option<u64>
    requires { list_all is_ascii_digit digits.now ≡ true }
    ensures value { result ≡ (if nat_le (digits_value 10 digits.now) most then Some (digits_value 10 digits.now) else None) }
    ensures within { IfSome result (λ n. n ≤ most) }
{
    let mut value: u64 = 0;
    for byte in digits {
        let next = value as u128 * 10 + (*byte - b'0') as u128;
        if next > most as u128 {
            return None;
        }
        value = next as u64;
    }
    Some(value)
}

/// Whether a word is decimal digits, the first of which is 0 only where it is alone.
#[tactic(auto, unfolding(crate::specs::Numbers::is_spelled))]
fn is_spelled(word: &[u8]) -> bool
    ensures { result ≡ is_spelled word.now }
{
    are_digits(word) && !word.is_empty() && (word[0] != b'0' || word.len() == 1)
}

fn are_digits(word: &[u8]) -> bool
    ensures { result ≡ list_all is_ascii_digit word.now }
{
    word.iter().all(|byte| byte.is_ascii_digit())
}
