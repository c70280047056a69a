ghost use Rattle.std.specs.Prelude.{◌≡◌, ◌≤◌, ℕ, List, IfOk};
ghost use Rattle.plan_certificate.specs.Answers.{GivesOrCertFault};
ghost use Rattle.plan_certificate.specs.Lines.{line_at, lines, number_at};

use crate::fault::CertFault;
use base_moment::LAST;
use base_words::{cut, number_up_to};

/// The `n`th line, and what follows its line feed.
pub(crate) fn line_at(n: u64, text: &[u8]) -> Result<(&[u8], &[u8]), CertFault>
    ensures { GivesOrCertFault {Y = List ℕ × List (List ℕ)} (λ p. (p.0.now, lines p.1.now)) result (line_at n (lines text.now)) }
{
    match cut(text, b'\n') {
        Some((line, rest)) => Ok((line, rest)),
        None if text.is_empty() => Err(CertFault::Truncated),
        None => Err(CertFault::BadLine(n)),
    }
}

/// The number of a word in the `n`th line, where it is at most [`LAST`].
#[tactic(auto, unfolding(crate::specs::Lines::number_at))]
pub(crate) fn number_at(n: u64, word: &[u8]) -> Result<u64, CertFault>
    ensures value { result ≡ number_at n word.now }
    ensures within { IfOk result (λ number. number ≤ LAST) }
{
    number_up_to(word, LAST).ok_or(CertFault::BadNumber(n))
}
