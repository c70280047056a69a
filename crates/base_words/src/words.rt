ghost use Rattle.std.specs.Prelude.{◌≡◌, bytes_eq};
ghost use Rattle.std.specs.Option.{option_map};
ghost use Rattle.base_words.specs.Pieces.{four, keyword, pieces, six, three, two, words};

use crate::pieces::cut;

/// Whether that is the first word of a line.
pub fn begins(line: &[u8], word: &[u8]) -> bool
    ensures { result ≡ bytes_eq (keyword line.now) word.now }
{
    keyword(line) == word
}

/// The first word of a line: what stands before its first space, and the whole line where it has none.
pub fn keyword(line: &[u8]) -> &[u8]
    ensures { result.now ≡ keyword line.now }
{
    match cut(line, b' ') {
        Some((first, _)) => first,
        None => line,
    }
}

/// The pieces of a text between bytes of this value, where it has two.
pub fn two_pieces(text: &[u8], byte: u8) -> Option<(&[u8], &[u8])>
    ensures { option_map (λ w. (w.0.now, w.1.now)) result ≡ two (pieces byte text.now) }
{
    let (first, rest) = cut(text, byte)?;
    match cut(rest, byte) {
        Some(_) => None,
        None => Some((first, rest)),
    }
}

/// The words of a line, where it has two.
pub fn two_words(line: &[u8]) -> Option<(&[u8], &[u8])>
    ensures { option_map (λ w. (w.0.now, w.1.now)) result ≡ two (words line.now) }
{
    two_pieces(line, b' ')
}

/// The words of a line, where it has three.
#[tactic(auto, using(crate::proofs::Cutting::three_after))]
pub fn three_words(line: &[u8]) -> Option<(&[u8], &[u8], &[u8])>
    ensures { option_map (λ w. (w.0.now, w.1.now, w.2.now)) result ≡ three (words line.now) }
{
    let (first, rest) = cut(line, b' ')?;
    let (second, third) = two_words(rest)?;
    Some((first, second, third))
}

/// The words of a line, where it has four.
#[tactic(auto, using(crate::proofs::Cutting::four_after))]
pub fn four_words(line: &[u8]) -> Option<(&[u8], &[u8], &[u8], &[u8])>
    ensures { option_map (λ w. (w.0.now, w.1.now, w.2.now, w.3.now)) result ≡ four (words line.now) }
{
    let (first, rest) = cut(line, b' ')?;
    let (second, third, fourth) = three_words(rest)?;
    Some((first, second, third, fourth))
}

/// The words of a line, where it has six.
#[tactic(auto, using(crate::proofs::Cutting::six_after))]
pub fn six_words(line: &[u8]) -> Option<(&[u8], &[u8], &[u8], &[u8], &[u8], &[u8])>
    ensures { option_map (λ w. (w.0.now, w.1.now, w.2.now, w.3.now, w.4.now, w.5.now)) result ≡ six (words line.now) }
{
    let (first, rest) = cut(line, b' ')?;
    let (second, rest) = cut(rest, b' ')?;
    let (third, fourth, fifth, sixth) = four_words(rest)?;
    Some((first, second, third, fourth, fifth, sixth))
}
