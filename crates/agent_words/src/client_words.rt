//! What the client of a command is told.
ghost use Rattle.std.specs.Prelude.{◌≡◌, ◌++◌, IfOk, IfSome, OnOk, codes, min, option_map};
ghost use Rattle.base_moment.specs.Rfc3339.{IsDateText};
ghost use Rattle.base_moment.specs.declared.moment.TheConstants.{LAST};
ghost use Rattle.state_changes.specs.Rows.{is_lease_if};
ghost use Rattle.agent_words.specs.Outcomes.{nothing_kept};
ghost use Rattle.agent_words.specs.Telling.{AreNeedLines, AreReachLines, IsAddLine, IsDated, IsDoneReply, IsDropLine, IsEndedLine, IsNeedLine, IsNeedReply, IsRefusalFor, IsRefusedReply, IsReplyTo, SaysNeeded, reload_line, replaced_text, settle_line, unkept_line};

use agent_control::{ControlReply, Lines, write_reply};
use base_moment::{LAST, Moment, Text, date_text};
use state_changes::Row;
use std::alloc::{AllocError, Global};

/// Words that say why nothing is kept; `None` where memory was wanting.
pub fn why_not_kept(alloc: Global) -> Option<Text>
    ensures { IfSome result (λ why. why ≡ nothing_kept) }
{
    Text::of(
        alloc,
        b"this agent keeps no changes; start it with --state FOLDER",
    )
    .ok()
}

/// That an entry is needed until then. The only error is out of memory, here and in what follows.
pub fn need_line(alloc: Global, name: &[u8], until: u64) -> Result<Text, AllocError>
    ensures { IfOk result (λ line. IsNeedLine name.now until line) }
{
    let needed = needed(alloc, until)?;
    three(alloc, name, b" ", &needed)
}

/// That an entry is kept from now on, and until when it is needed.
pub fn add_line(alloc: Global, name: &[u8], until: u64) -> Result<Text, AllocError>
    ensures { IfOk result (λ line. IsAddLine name.now until line) }
{
    let needed = needed(alloc, until)?;
    let line = three(alloc, name, b" is kept from now on: it ", &needed)?;
    Ok(line)
}

/// That an entry has another credential.
pub fn replace_line(alloc: Global, name: &[u8], row: Option<&Row>) -> Result<Text, AllocError>
    ensures { IfOk result (λ line. line ≡ replaced_text name.now (option_map (λ r. r.now) row.entry)) }
{
    if is_lease_if(row) {
        two(alloc, name, b" has a new lease id")
    } else {
        two(alloc, name, b" has a new secret")
    }
}

fn is_lease_if(row: Option<&Row>) -> bool
    ensures { result ≡ is_lease_if (option_map (λ r. r.now) row.entry) }
{
    match row {
        None => false,
        Some(row) => row.kind.is_lease(),
    }
}

/// That an entry is kept no more, and its end, where it is known.
pub fn drop_line(alloc: Global, name: &[u8], end: Option<u64>) -> Result<Text, AllocError>
    ensures { IfOk result (λ line. IsDropLine name.now end line) }
{
    match end {
        None => two(alloc, name, b" is no longer kept"),
        Some(end) => ended_line(alloc, name, end),
    }
}

fn ended_line(alloc: Global, name: &[u8], end: u64) -> Result<Text, AllocError>
    ensures { IfOk result (λ line. IsEndedLine name.now end line) }
{
    let date = date_of(alloc, end)?;
    let line = three(
        alloc,
        name,
        b" is no longer kept, and ends at ",
        date.list(),
    )?;
    Ok(line)
}

/// That the file holds every change.
pub fn settle_line(alloc: Global, path: &[u8]) -> Result<Text, AllocError>
    ensures { IfOk result (λ line. line ≡ settle_line path.now) }
{
    two(alloc, path, b" holds every change")
}

/// That the file was read anew.
pub fn reload_line(alloc: Global, path: &[u8]) -> Result<Text, AllocError>
    ensures { IfOk result (λ line. line ≡ reload_line path.now) }
{
    two(alloc, path, b" was read anew")
}

// Until when an entry is needed, in words.
#[tactic(auto, unfolding(crate::specs::Telling::SaysNeeded))]
fn needed(alloc: Global, until: u64) -> Result<Vec<u8>, AllocError>
    ensures { IfOk result (λ text. SaysNeeded until text.items) }
{
    if until == 0 {
        Vec::from_slice(alloc, b"has no need")
    } else if until == LAST {
        Vec::from_slice(alloc, b"is needed always")
    } else {
        dated(alloc, b"is needed until ", until)
    }
}

// Words, and the date of a moment after them.
fn dated(alloc: Global, front: &[u8], moment: u64) -> Result<Vec<u8>, AllocError>
    ensures { IfOk result (λ text. IsDated front.now moment text.items) }
{
    let date = date_of(alloc, moment)?;
    let mut text = Vec::from_slice(alloc, front)?;
    text.extend_from_slice(date.list())?;
    Ok(text)
}

fn date_of(alloc: Global, moment: u64) -> Result<Text, AllocError>
    ensures { IfOk result (λ date. IsDateText date (min moment LAST)) }
{
    match date_text(alloc, Moment::new(moment.min(LAST)).unwrap()) {
        Ok(date) => Ok(date),
        Err(_) => Err(AllocError),
    }
}

fn two(alloc: Global, first: &[u8], second: &[u8]) -> Result<Text, AllocError>
    ensures { IfOk result (λ text. text ≡ first.now ++ second.now) }
{
    let mut text = Vec::from_slice(alloc, first)?;
    text.extend_from_slice(second)?;
    Ok(Text::from_vec(text))
}

fn three(alloc: Global, first: &[u8], second: &[u8], third: &[u8]) -> Result<Text, AllocError>
    ensures { IfOk result (λ text. text ≡ first.now ++ (second.now ++ third.now)) }
{
    let mut text = Vec::from_slice(alloc, first)?;
    text.extend_from_slice(second)?;
    text.extend_from_slice(third)?;
    Ok(Text::from_vec(text))
}

/// The lines of the answer to what came of a request; `None` where memory was wanting for them, or for what they say.
pub fn reply_to(alloc: Global, outcome: Result<Option<Text>, Option<Text>>) -> Option<Text>
    ensures { IsReplyTo outcome result }
{
    match outcome {
        Ok(line) => done_reply(alloc, line),
        Err(why) => refused_reply(alloc, why),
    }
}

// `ok` and the line.
fn done_reply(alloc: Global, line: Option<Text>) -> Option<Text>
    ensures { IsDoneReply line result }
{
    let line = line?;
    let mut lines = Vec::new(alloc);
    lines.push(line).ok()?;
    write_reply(alloc, &ControlReply::Done(Lines::of(lines))).ok()
}

/// `ok` and the line about a need; until when the entry can be kept, where it does not reach as far; and where nothing keeps the need,
/// that it holds until a restart only. `None` where memory was wanting.
pub fn need_reply(
    alloc: Global,
    line: Option<Text>,
    reach: Option<u64>,
    is_kept: bool,
) -> Option<Text>
    ensures { IsNeedReply is_kept reach line result }
{
    let line = line?;
    let lines = need_lines(alloc, line, reach, is_kept).ok()?;
    write_reply(alloc, &ControlReply::Done(Lines::of(lines))).ok()
}

// The line about a need, and those after it.
#[tactic(auto, using(crate::proofs::NeedLines::kept_lines, crate::proofs::NeedLines::unkept_need_lines))]
fn need_lines(
    alloc: Global,
    line: Text,
    reach: Option<u64>,
    is_kept: bool,
) -> Result<Vec<Text>, AllocError>
    ensures { IfOk result (λ lines. AreNeedLines is_kept reach line lines.items) }
{
    let mut lines = Vec::new(alloc);
    lines.push(line)?;
    push_reach(alloc, reach, &mut lines)?;
    if !is_kept {
        lines.push(unkept_line(alloc)?)?;
    }
    Ok(lines)
}

// Appends until when an entry can be kept, where it does not reach as far as it is needed.
fn push_reach(alloc: Global, reach: Option<u64>, lines: &mut Vec<Text>) -> Result<(), AllocError>
    ensures { OnOk result (AreReachLines reach lines.old.items lines.new.items) }
{
    if let Some(reach) = reach {
        lines.push(reach_line(alloc, reach)?)?;
    }
    Ok(())
}

// Until when an entry can be kept.
fn reach_line(alloc: Global, reach: u64) -> Result<Text, AllocError>
    ensures { IfOk result (λ line. IsDated (codes "it can be kept until ") reach line) }
{
    Ok(Text::from_vec(dated(alloc, b"it can be kept until ", reach)?))
}

fn unkept_line(alloc: Global) -> Result<Text, AllocError>
    ensures { IfOk result (λ line. line ≡ unkept_line) }
{
    Text::of(
        alloc,
        b"this holds until a restart: the agent keeps no changes",
    )
}

fn refused_reply(alloc: Global, why: Option<Text>) -> Option<Text>
    ensures { IsRefusedReply why result }
{
    let why = why?;
    write_reply(
        alloc,
        &ControlReply::Refused(why, Lines::of(Vec::new(alloc))),
    )
    .ok()
}

/// The lines of the answer to what was not done for these reasons; `None` where there are none, or memory was wanting.
pub fn refusal_for(alloc: Global, mut whys: Vec<Text>) -> Option<Text>
    ensures { IsRefusalFor whys.items result }
{
    if whys.is_empty() {
        return None;
    }
    let why = whys.remove(0);
    write_reply(alloc, &ControlReply::Refused(why, Lines::of(whys))).ok()
}
