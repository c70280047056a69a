//! The lines that a run is written as.
ghost use Rattle.std.specs.Prelude.{◌≡◌, ◌++◌, ◌<◌, OnOk, length};
ghost use Rattle.std.specs.List.{All};
ghost use Rattle.tick_runs.specs.Text.{answer_line, done_text, short_need_line, short_need_lines, wake_line_of_output};
ghost use Rattle.tick_keeper.specs.declared.event.Output.TheVariants as out;
ghost use Rattle.tick_runs.specs.Hearing.{next_tick_line, sleep_line};
ghost use Rattle.tick_runs.specs.Replies.{IsAnswerOf};
ghost use Rattle.program_lines.specs.Text.{entry_line};

use plan_forest::Forest;
use program_lines::{push_numbered, push_wake};
use std::alloc::{AllocError, Global};
use tick_keeper::{Event, ShortNeed};
use vault_http::Reply;

/// Appends the line of each need that was shortened.
#[tactic(auto, unfolding(crate::specs::Text::short_need_lines))]
pub(crate) fn push_short_lines(
    alloc: Global,
    forest: &Forest,
    short: &[ShortNeed],
    text: &mut Vec<u8>,
) -> Result<(), AllocError>
    requires { All (λ p. p.entry < length forest.now.entries) short.now }
    ensures { OnOk result (text.new.items ≡ text.old.items ++ short_need_lines forest.now short.now) }
{
    for pair in short {
        push_short_line(alloc, forest, *pair, text)?;
    }
    Ok(())
}

/// Appends `short NAME NEED` and a line feed.
fn push_short_line(
    alloc: Global,
    forest: &Forest,
    pair: ShortNeed,
    text: &mut Vec<u8>,
) -> Result<(), AllocError>
    requires { pair.entry < length forest.now.entries }
    ensures { OnOk result (text.new.items ≡ text.old.items ++ short_need_line forest.now pair) }
{
    let need = pair.need.to_string(alloc)?;
    text.extend_from_slice(b"short ")?;
    text.extend_from_slice(forest.get(pair.entry).name.list())?;
    text.push(b' ')?;
    text.extend_from_slice(need.as_bytes())?;
    text.push(b'\n')?;
    Ok(())
}

/// Appends `wake T NAME..` and a line feed, of the entries that are asked.
pub(crate) fn push_wake_line(
    alloc: Global,
    forest: &Forest,
    t: u64,
    asked: &[u32],
    text: &mut Vec<u8>,
) -> Result<(), AllocError>
    ensures { OnOk result (text.new.items ≡ text.old.items ++ wake_line_of_output forest.now t (out.Ask asked.now)) }
{
    push_wake(alloc, forest, t, asked, text)
}

/// Appends the line of the answer of the entry `i`: `told NAME SECONDS`, `refused NAME STATUS` or `lost NAME`.
pub(crate) fn push_answer_line(
    alloc: Global,
    forest: &Forest,
    i: u32,
    event: Event,
    reply: &Option<Reply>,
    text: &mut Vec<u8>,
) -> Result<(), AllocError>
    requires within { i < length forest.now.entries }
    requires answers { IsAnswerOf i event }
    ensures { OnOk result (text.new.items ≡ text.old.items ++ answer_line forest.now event reply.now) }
{
    let name = forest.get(i).name.list();
    match event {
        Event::Told { seconds, .. } => push_numbered(alloc, b"told ", name, seconds, text),
        Event::Refused(_) => {
            let status = match reply {
                Some(reply) => reply.status,
                None => 0,
            };
            push_numbered(alloc, b"refused ", name, status as u64, text)
        }
        Event::Lost(_) => {
            text.extend_from_slice(b"lost ")?;
            text.extend_from_slice(name)?;
            text.push(b'\n')?;
            Ok(())
        }
        Event::Tick(_) | Event::Need { .. } => Ok(()),
    }
}

/// Appends `done WAKES REQUESTS` and a line feed.
#[tactic(auto, unfolding(crate::specs::Text::done_text))]
pub(crate) fn push_done(
    alloc: Global,
    wakes: u64,
    requests: u64,
    text: &mut Vec<u8>,
) -> Result<(), AllocError>
    ensures { OnOk result (text.new.items ≡ text.old.items ++ done_text wakes requests) }
{
    let wakes = wakes.to_string(alloc)?;
    let requests = requests.to_string(alloc)?;
    text.extend_from_slice(b"done ")?;
    text.extend_from_slice(wakes.as_bytes())?;
    text.push(b' ')?;
    text.extend_from_slice(requests.as_bytes())?;
    text.push(b'\n')?;
    Ok(())
}

/// Appends `sleep T` and a line feed.
pub(crate) fn push_sleep(alloc: Global, t: u64, text: &mut Vec<u8>) -> Result<(), AllocError>
    ensures { OnOk result (text.new.items ≡ text.old.items ++ sleep_line t) }
{
    let t = t.to_string(alloc)?;
    text.extend_from_slice(b"sleep ")?;
    text.extend_from_slice(t.as_bytes())?;
    text.push(b'\n')?;
    Ok(())
}

/// Appends `next T`, or `next none`, and a line feed.
pub(crate) fn push_next(
    alloc: Global,
    next: Option<u64>,
    text: &mut Vec<u8>,
) -> Result<(), AllocError>
    ensures { OnOk result (text.new.items ≡ text.old.items ++ next_tick_line next) }
{
    let Some(t) = next else {
        text.extend_from_slice(b"next none\n")?;
        return Ok(());
    };
    let t = t.to_string(alloc)?;
    text.extend_from_slice(b"next ")?;
    text.extend_from_slice(t.as_bytes())?;
    text.push(b'\n')?;
    Ok(())
}

/// Appends `entry NAME END` and a line feed.
pub(crate) fn push_entry(
    alloc: Global,
    name: &[u8],
    end: u64,
    text: &mut Vec<u8>,
) -> Result<(), AllocError>
    ensures { OnOk result (text.new.items ≡ text.old.items ++ entry_line name.now end) }
{
    push_numbered(alloc, b"entry ", name, end, text)
}
