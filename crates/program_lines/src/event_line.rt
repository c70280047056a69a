//! What an event line says.
ghost use Rattle.std.specs.Prelude.{◌≡◌, IfSome, ℕ, length};
ghost use Rattle.program_lines.specs.EventLines.{IsEventLineWithin, heard_in, need_in, tick_in};
ghost use Rattle.base_moment.specs.declared.moment.TheConstants.{LAST};
ghost use Rattle.base_words.specs.Numbers.{number_up_to};

use crate::limits::MOST_LINE;
use base_moment::{LAST, Moment};
use base_words::{number_up_to, three_words, two_words};
use plan_forest::Forest;

/// What an event line says to the keeper of a forest.
#[derive(Clone, Copy, Debug, PartialEq, Eq)]
pub enum HeardLine {
    /// `tick T`: it is this moment now.
    Tick(Moment),
    /// `need NAME T`: the entry of that name is needed until then.
    Need { i: u32, until: Moment },
    /// `need NAME T`, where no entry has the name.
    Unknown,
}

/// What a line without its line feed says; `None` where it is no event line.
#[tactic(auto, unfolding(crate::specs::EventLines::heard_in))]
pub fn heard_in(forest: &Forest, line: &[u8]) -> Option<HeardLine>
    ensures heard { result ≡ heard_in forest.now line.now }
    ensures within { IfSome result (λ h. IsEventLineWithin (length forest.now.entries) h) }
{
    if line.len() >= MOST_LINE {
        return None;
    }
    if let Some((word, t)) = two_words(line) {
        return tick_in(word, t);
    }
    let (word, name, until) = three_words(line)?;
    need_in(forest, word, name, until)
}

fn tick_in(word: &[u8], t: &[u8]) -> Option<HeardLine>
    ensures ticked { result ≡ tick_in word.now t.now }
    ensures within { (n : ℕ) → IfSome result (λ h. IsEventLineWithin n h) }
{
    if word != b"tick".as_slice() {
        return None;
    }
    Some(HeardLine::Tick(moment_in(t)?))
}

fn need_in(forest: &Forest, word: &[u8], name: &[u8], until: &[u8]) -> Option<HeardLine>
    ensures needed { result ≡ need_in forest.now word.now name.now until.now }
    ensures within { IfSome result (λ h. IsEventLineWithin (length forest.now.entries) h) }
{
    if word != b"need".as_slice() || name.is_empty() {
        return None;
    }
    let until = moment_in(until)?;
    match forest.find(name) {
        Some(i) => Some(HeardLine::Need { i, until }),
        None => Some(HeardLine::Unknown),
    }
}

/// The moment that a word spells.
fn moment_in(word: &[u8]) -> Option<Moment>
    ensures { result ≡ number_up_to LAST word.now }
{
    let seconds = number_up_to(word, LAST)?;
    Moment::new(seconds)
}
