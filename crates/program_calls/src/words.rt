//! The line that the words of a call make.
ghost use Rattle.std.specs.Prelude.{◌≡◌, ◌∷◌, [], IfOk, MatchResult, false, true};
ghost use Rattle.std.specs.Str.{is_utf8};
ghost use Rattle.serde_json.specs.View.{view};
ghost use Rattle.agent_control.specs.Answer.{GivesOrRequestFault};
ghost use Rattle.agent_control.specs.Words.{tree_of_words};
ghost use Rattle.agent_control.specs.declared.fault.RequestFault.TheVariants as faults;
ghost use Rattle.base_words.specs.Texts.{stripped};
ghost use Rattle.program_calls.specs.Asking.{line_for_ask, tree_for_ask, words_line};

use crate::ask::CallWords;
use agent_control::{RequestFault, read_request};
use base_moment::Text;
use serde_json::{Value, json};
use std::alloc::{AllocError, Global};

/// The line that asks for it, with its line feed, where an agent reads it as a request; else why it does not.
#[tactic(auto, unfolding(crate::specs::Asking::line_for_ask))]
pub(crate) fn line_for(
    alloc: Global,
    ask: &CallWords<'_>,
    input: &[u8],
) -> Result<Text, RequestFault>
    ensures { GivesOrRequestFault (λ text. text) result (line_for_ask ask.now input.now) }
{
    let mut line = words_line(alloc, ask, input)?;
    let _request = read_request(alloc, &line)?;
    line.push(b'\n')?;
    Ok(Text::from_vec(line))
}

// The words as a line.
#[tactic(auto, unfolding(crate::specs::Asking::words_line))]
fn words_line(alloc: Global, ask: &CallWords<'_>, input: &[u8]) -> Result<Vec<u8>, RequestFault>
    ensures { GivesOrRequestFault (λ line. line.items) result (words_line ask.now input.now) }
{
    let tree = tree_for(alloc, ask, input)?;
    Ok(tree.to_vec(alloc)?)
}

// The array of the words.
#[tactic(auto, unfolding(crate::specs::Asking::tree_for_ask))]
fn tree_for(alloc: Global, ask: &CallWords<'_>, input: &[u8]) -> Result<Value, RequestFault>
    ensures { GivesOrRequestFault (λ v. view v) result (tree_for_ask ask.now input.now) }
{
    match ask {
        CallWords::Need { name, when } => Ok(three(alloc, "need", name, when)?),
        CallWords::Replace { name } => {
            let credential = text(stripped(input))?;
            Ok(three(alloc, "replace", name, credential)?)
        }
        CallWords::Add => {
            let table = text(input)?;
            Ok(two(alloc, "add", table)?)
        }
        CallWords::Drop { name } => Ok(two(alloc, "drop", name)?),
        CallWords::Status => Ok(one(alloc, "status")?),
        CallWords::Health => Ok(one(alloc, "health")?),
        CallWords::Settle => Ok(one(alloc, "settle")?),
        CallWords::Reload => Ok(one(alloc, "reload")?),
        CallWords::Follow { alerts: false } => Ok(one(alloc, "follow")?),
        CallWords::Follow { alerts: true } => Ok(two(alloc, "follow", "alerts")?),
    }
}

fn stripped(text: &[u8]) -> &[u8]
    ensures { result.now ≡ stripped text.now }
{
    text.trim_ascii()
}

// The text that bytes are.
fn text(bytes: &[u8]) -> Result<&str, RequestFault>
    ensures { MatchResult result (λ t. (t.now ≡ bytes.now) × (is_utf8 bytes.now ≡ true)) (λ fault. (fault ≡ faults.NotWords) × (is_utf8 bytes.now ≡ false)) }
{
    match std::str::from_utf8(bytes) {
        Ok(text) => Ok(text),
        Err(_) => Err(RequestFault::NotWords),
    }
}

fn one(alloc: Global, word: &str) -> Result<Value, AllocError>
    ensures { IfOk result (λ v. view v ≡ tree_of_words (word.now ∷ [])) }
{
    json!(in alloc; [word])
}

fn two(alloc: Global, first: &str, second: &str) -> Result<Value, AllocError>
    ensures { IfOk result (λ v. view v ≡ tree_of_words (first.now ∷ second.now ∷ [])) }
{
    json!(in alloc; [first, second])
}

fn three(alloc: Global, first: &str, second: &str, third: &str) -> Result<Value, AllocError>
    ensures { IfOk result (λ v. view v ≡ tree_of_words (first.now ∷ second.now ∷ third.now ∷ [])) }
{
    json!(in alloc; [first, second, third])
}
