ghost use Rattle.std.specs.Prelude.{◌≡◌, ◌<◌, Err, Ok, length};
ghost use Rattle.std.specs.Int.{is_in_range};
ghost use Rattle.std.specs.List.{list_all};
ghost use Rattle.plan_forest.specs.Push.{is_name, is_name_byte};
ghost use Rattle.vault_inventory.specs.Values.{is_credential};
ghost use Rattle.agent_control.specs.Answer.{GivesOrRequestFault};
ghost use Rattle.agent_control.specs.Requests.{asked_by_line, command_of, if_named, need_request, plain_of, replace_of, request_in_line};
ghost use Rattle.agent_control.specs.When.{when_of};
ghost use Rattle.agent_control.specs.declared.fault.RequestFault.TheVariants as faults;
ghost use Rattle.agent_control.specs.declared.request.ControlRequest.TheVariants.{Drop};
ghost use Rattle.agent_control.specs.declared.limits.TheConstants.{LINE_MAX};

use crate::fault::RequestFault;
use crate::limits::LINE_MAX;
use crate::request::ControlRequest;
use crate::when::read_when;
use crate::words::Words;
use base_moment::{Name, Text};
use plan_forest::NAME_MAX;
use std::alloc::Global;
use vault_inventory::CREDENTIAL_MAX;

/// What a line asks for, which is without its line feed.
///
/// # Errors
///
/// The first fault in the order of [`RequestFault`], or out of memory. A line that is too long is refused before any memory is
/// asked for.
#[tactic(auto, unfolding(crate::specs::Requests::request_in_line))]
pub fn read_request(alloc: Global, line: &[u8]) -> Result<ControlRequest, RequestFault>
    ensures request { GivesOrRequestFault (λ request. request) result (request_in_line line.now) }
    ensures too_long { LINE_MAX < length line.now → result ≡ Err faults.TooLong }
{
    if line.len() > LINE_MAX {
        return Err(RequestFault::TooLong);
    }
    asked(alloc, line)
}

// What a line asks for that is not too long.
#[tactic(auto, unfolding(crate::specs::Requests::asked_by_line))]
fn asked(alloc: Global, line: &[u8]) -> Result<ControlRequest, RequestFault>
    ensures { GivesOrRequestFault (λ request. request) result (asked_by_line line.now) }
{
    let words = Words::read(alloc, line)?;
    command(alloc, &words)
}

// What words ask for.
#[tactic(auto, unfolding(crate::specs::Requests::command_of))]
fn command(alloc: Global, words: &Words) -> Result<ControlRequest, RequestFault>
    ensures { GivesOrRequestFault (λ request. request) result (command_of words.now) }
{
    if words.are("need", 3) {
        need(alloc, words.at(1), words.at(2))
    } else if words.are("replace", 3) {
        replace(alloc, words.at(1), words.at(2))
    } else if words.are("drop", 2) {
        dropped(alloc, words.at(1))
    } else {
        plain(alloc, words)
    }
}

// What the words of a command without a name ask for.
#[tactic(auto, unfolding(crate::specs::Requests::plain_of))]
fn plain(alloc: Global, words: &Words) -> Result<ControlRequest, RequestFault>
    ensures { GivesOrRequestFault (λ request. request) result (plain_of words.now) }
{
    if words.are("add", 2) {
        let table = Text::of(alloc, words.at(1).as_bytes())?;
        return Ok(ControlRequest::Add { table });
    }
    if words.are("status", 1) {
        Ok(ControlRequest::Status)
    } else if words.are("health", 1) {
        Ok(ControlRequest::Health)
    } else if words.are("settle", 1) {
        Ok(ControlRequest::Settle)
    } else if words.are("reload", 1) {
        Ok(ControlRequest::Reload)
    } else if words.are("follow", 1) {
        Ok(ControlRequest::Follow { alerts: false })
    } else if words.are_two("follow", "alerts") {
        Ok(ControlRequest::Follow { alerts: true })
    } else {
        Err(RequestFault::NoCommand)
    }
}

// A need of the entry of that name.
fn need(alloc: Global, name: &str, when: &str) -> Result<ControlRequest, RequestFault>
    ensures { GivesOrRequestFault (λ request. request) result (if_named name.now (need_request name.now (when_of when.now))) }
{
    if !is_name(name.as_bytes()) {
        return Err(RequestFault::BadName);
    }
    let Some(when) = read_when(when) else {
        return Err(RequestFault::BadWhen);
    };
    let name = Name::of(alloc, name.as_bytes())?;
    Ok(ControlRequest::Need { name, when })
}

// Another credential of the entry of that name.
fn replace(alloc: Global, name: &str, credential: &str) -> Result<ControlRequest, RequestFault>
    ensures { GivesOrRequestFault (λ request. request) result (if_named name.now (replace_of name.now credential.now)) }
{
    if !is_name(name.as_bytes()) {
        return Err(RequestFault::BadName);
    }
    if !is_credential(credential.as_bytes()) {
        return Err(RequestFault::BadCredential);
    }
    let name = Name::of(alloc, name.as_bytes())?;
    let credential = Text::of(alloc, credential.as_bytes())?;
    Ok(ControlRequest::Replace { name, credential })
}

// That the entry of that name is to be kept no more.
fn dropped(alloc: Global, name: &str) -> Result<ControlRequest, RequestFault>
    ensures { GivesOrRequestFault (λ request. request) result (if_named name.now (Ok (Drop name.now))) }
{
    if !is_name(name.as_bytes()) {
        return Err(RequestFault::BadName);
    }
    let name = Name::of(alloc, name.as_bytes())?;
    Ok(ControlRequest::Drop { name })
}

// Whether these bytes are a name: 1 to 64 ASCII letters, digits, `-`, `_`, `.` or `/`.
#[tactic(auto, unfolding(plan_forest::specs::Push::is_name))]
fn is_name(name: &[u8]) -> bool
    ensures { result ≡ is_name name.now }
{
    !name.is_empty() && name.len() <= NAME_MAX && has_name_bytes(name)
}

fn has_name_bytes(name: &[u8]) -> bool
    ensures { result ≡ list_all is_name_byte name.now }
{
    name.iter().all(|b| {
        b.is_ascii_alphanumeric() || *b == b'-' || *b == b'_' || *b == b'.' || *b == b'/'
    })
}

// Whether these bytes are a credential: 1 to 256 bytes from 0x21 to 0x7E.
fn is_credential(word: &[u8]) -> bool
    ensures { result ≡ is_credential word.now }
{
    !word.is_empty() && word.len() <= CREDENTIAL_MAX && is_visible(word)
}

fn is_visible(word: &[u8]) -> bool
    ensures { result ≡ list_all (is_in_range 0x21 0x7E) word.now }
{
    word.iter().all(|b| *b >= 0x21 && *b <= 0x7e)
}
