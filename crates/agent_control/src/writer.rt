ghost use Rattle.std.specs.Prelude.{◌≡◌, ◌∷◌, [], ◌&&◌, IfOk, MatchResult, codes, string_bytes, false, true};
ghost use Rattle.std.specs.Str.{is_utf8};
ghost use Rattle.serde_json.specs.View.{view};
ghost use Rattle.agent_control.specs.Answer.{GivesOrRequestFault};
ghost use Rattle.agent_control.specs.Requests.{ended, line_for, request_line_text, tree_for};
ghost use Rattle.agent_control.specs.When.{when_word};
ghost use Rattle.agent_control.specs.Words.{texted, tree_of_words};
ghost use Rattle.agent_control.specs.declared.fault.RequestFault.TheVariants as faults;
ghost use Rattle.vault_inventory.specs.Needs.{need_word};

use crate::fault::RequestFault;
use crate::limits::LINE_MAX;
use crate::request::ControlRequest;
use crate::when::When;
use base_moment::Text;
use serde_json::{Value, json};
use std::alloc::{AllocError, Global};
use vault_inventory::Need;

/// The line that asks for it, with its line feed. It may hold a credential.
///
/// # Errors
///
/// `NotWords` where a text of it is not UTF-8, `TooLong`, or out of memory.
#[tactic(auto, unfolding(crate::specs::Requests::request_line_text))]
pub fn write_request(alloc: Global, request: &ControlRequest) -> Result<Text, RequestFault>
    ensures { GivesOrRequestFault (λ text. text) result (request_line_text request.now) }
{
    ended(line_for(alloc, request)?)
}

// A line with its line feed.
#[tactic(auto, unfolding(crate::specs::Requests::ended))]
fn ended(mut line: Vec<u8>) -> Result<Text, RequestFault>
    ensures { GivesOrRequestFault (λ text. text) result (ended line.items) }
{
    if line.len() > LINE_MAX {
        return Err(RequestFault::TooLong);
    }
    line.push(b'\n')?;
    Ok(Text::from_vec(line))
}

// The line that asks for it.
#[tactic(auto, unfolding(crate::specs::Requests::line_for))]
fn line_for(alloc: Global, request: &ControlRequest) -> Result<Vec<u8>, RequestFault>
    ensures { GivesOrRequestFault (λ line. line.items) result (line_for request.now) }
{
    let tree = tree_for(alloc, request)?;
    Ok(tree.to_vec(alloc)?)
}

// The array of its words.
#[tactic(auto, unfolding(crate::specs::Requests::tree_for))]
fn tree_for(alloc: Global, request: &ControlRequest) -> Result<Value, RequestFault>
    ensures { GivesOrRequestFault (λ v. view v) result (tree_for request.now) }
{
    match request {
        ControlRequest::Need { name, when } => need_tree(alloc, name.list(), *when),
        ControlRequest::Replace { name, credential } => replace_tree(
            alloc,
            name.list(),
            credential.list(),
        ),
        ControlRequest::Add { table } => two(alloc, "add", table.list()),
        ControlRequest::Drop { name } => two(alloc, "drop", name.list()),
        ControlRequest::Status => Ok(one(alloc, "status")?),
        ControlRequest::Health => Ok(one(alloc, "health")?),
        ControlRequest::Settle => Ok(one(alloc, "settle")?),
        ControlRequest::Reload => Ok(one(alloc, "reload")?),
        ControlRequest::Follow { alerts: false } => Ok(one(alloc, "follow")?),
        ControlRequest::Follow { alerts: true } => Ok(pair(alloc, "follow", "alerts")?),
    }
}

// The words of a need.
fn need_tree(alloc: Global, name: &[u8], when: When) -> Result<Value, RequestFault>
    ensures { GivesOrRequestFault (λ v. view v) result (texted (is_utf8 name.now) (codes "need" ∷ name.now ∷ when_word when ∷ [])) }
{
    let name = text(name)?;
    let when = when_word(alloc, when)?;
    Ok(three(alloc, "need", name, when.as_str())?)
}

// The words of a replacement.
fn replace_tree(alloc: Global, name: &[u8], credential: &[u8]) -> Result<Value, RequestFault>
    ensures { GivesOrRequestFault (λ v. view v) result (texted (is_utf8 name.now && is_utf8 credential.now) (codes "replace" ∷ name.now ∷ credential.now ∷ [])) }
{
    let name = text(name)?;
    let credential = text(credential)?;
    Ok(three(alloc, "replace", name, credential)?)
}

// A command with one more word.
fn two(alloc: Global, command: &str, word: &[u8]) -> Result<Value, RequestFault>
    ensures { GivesOrRequestFault (λ v. view v) result (texted (is_utf8 word.now) (command.now ∷ word.now ∷ [])) }
{
    let word = text(word)?;
    Ok(pair(alloc, command, word)?)
}

// The text that bytes are.
fn text(bytes: &[u8]) -> Result<&str, RequestFault>
    ensures { MatchResult result (λ t. (t.now ≡ bytes.now) × (is_utf8 bytes.now ≡ true)) (λ fault. (fault ≡ faults.NotWords) × (is_utf8 bytes.now ≡ false)) }
{
    match std::str::from_utf8(bytes) {
        Ok(text) => Ok(text),
        Err(_) => Err(RequestFault::NotWords),
    }
}

fn one(alloc: Global, word: &str) -> Result<Value, AllocError>
    ensures { IfOk result (λ v. view v ≡ tree_of_words (word.now ∷ [])) }
{
    json!(in alloc; [word])
}

fn pair(alloc: Global, first: &str, second: &str) -> Result<Value, AllocError>
    ensures { IfOk result (λ v. view v ≡ tree_of_words (first.now ∷ second.now ∷ [])) }
{
    json!(in alloc; [first, second])
}

fn three(alloc: Global, first: &str, second: &str, third: &str) -> Result<Value, AllocError>
    ensures { IfOk result (λ v. view v ≡ tree_of_words (first.now ∷ second.now ∷ third.now ∷ [])) }
{
    json!(in alloc; [first, second, third])
}

// The word for a need.
fn when_word(alloc: Global, when: When) -> Result<String, AllocError>
    ensures { IfOk result (λ word. string_bytes word ≡ when_word when) }
{
    match when {
        When::Fixed(need) => need_word(alloc, need),
        When::FromNow(seconds) => {
            let mut word = String::from_str(alloc, "+")?;
            word.push_str(seconds.to_string(alloc)?.as_str())?;
            Ok(word)
        }
    }
}

fn need_word(alloc: Global, need: Need) -> Result<String, AllocError>
    ensures { IfOk result (λ word. string_bytes word ≡ need_word need) }
{
    match need {
        Need::Until(moment) => moment.get().to_string(alloc),
        Need::Always => String::from_str(alloc, "always"),
    }
}
