ghost use Rattle.std.specs.Prelude.{◌≡◌, ◌++◌, ◌<◌, IfOk, OnOk, length};
ghost use Rattle.std.specs.List.{range_with_len};
ghost use Rattle.plan_commands.specs.EndsRun.{EndsHalts, EndsTexts};
ghost use Rattle.plan_commands.specs.code.Making.{MakesOf, MakesOutcome, at_index};
ghost use Rattle.plan_commands.specs.EndsText.{all_asked, end_lines, keeps_line, name_end_line};
ghost use Rattle.vault_start.specs.Start.{inventory_at};

use crate::outcome::Outcome;
use base_moment::{Moment, Text};
use plan_forest::{Entry, Forest, Indices};
use plan_rule::{Wake, ends_after, keeps};
use program_report::{Exit, Stop};
use std::alloc::{AllocError, Global};
use vault_start::read_at;

/// The whole text of the command `ends`, or why there is none.
pub(crate) fn ends_text(
    alloc: Global,
    inventory: &[u8],
    start: Moment,
    moments: &[Moment],
) -> Result<Outcome, Stop>
    ensures { MakesOutcome (EndsTexts start moments.now) (EndsHalts start moments.now) (inventory_at start inventory.now) result }
{
    let inventory = read_at(alloc, inventory, start)?;
    replay_text(alloc, inventory.forest(), start, moments)
}

/// The text of a forest, from its names and numbers alone.
fn replay_text(
    alloc: Global,
    forest: &Forest,
    start: Moment,
    moments: &[Moment],
) -> Result<Outcome, Stop>
    ensures { MakesOf (EndsTexts start moments.now) (EndsHalts start moments.now) forest.now result }
{
    let wakes = all_asked(alloc, forest, moments)?;
    let ends = ends_after(alloc, forest, start, &wakes)?;
    let kept = keeps(alloc, forest, start, &wakes)?;
    let mut text = Vec::new(alloc);
    push_lines(alloc, forest, ends.list(), &mut text)?;
    text.extend_from_slice(keeps_line(kept))?;
    Ok(Outcome {
        exit: Exit::Done,
        text: Text::from_vec(text),
    })
}

/// A wake-up at each of the moments, which asks every entry.
fn all_asked(alloc: Global, forest: &Forest, moments: &[Moment]) -> Result<Vec<Wake>, AllocError>
    ensures { IfOk result (λ wakes. wakes.items ≡ all_asked (length forest.now.entries) moments.now) }
{
    let mut wakes = Vec::new(alloc);
    for at in moments {
        wakes.push(Wake {
            at: *at,
            asked: every_index(alloc, forest)?,
        })?;
    }
    Ok(wakes)
}

fn every_index(alloc: Global, forest: &Forest) -> Result<Indices, AllocError>
    ensures { IfOk result (λ asked. asked ≡ range_with_len 0 (length forest.now.entries)) }
{
    let mut indices = Vec::new(alloc);
    for index in 0..forest.len() {
        indices.push(index)?;
    }
    Ok(Indices::from_vec(indices))
}

/// Appends the line of each entry with its end.
fn push_lines(
    alloc: Global,
    forest: &Forest,
    ends: &[u64],
    text: &mut Vec<u8>,
) -> Result<(), AllocError>
    requires { length ends.now ≡ length forest.now.entries }
    ensures { OnOk result (text.new.items ≡ text.old.items ++ end_lines forest.now.entries (at_index ends.now) (length forest.now.entries)) }
{
    for index in 0..forest.len() {
        push_line(alloc, forest.get(index), ends[index as usize], text)?;
    }
    Ok(())
}

/// Appends `NAME END` and a line feed.
#[tactic(auto, unfolding(crate::specs::EndsText::name_end_line))]
fn push_line(alloc: Global, entry: &Entry, end: u64, text: &mut Vec<u8>) -> Result<(), AllocError>
    ensures { OnOk result (text.new.items ≡ text.old.items ++ name_end_line entry.now end) }
{
    let end = end.to_string(alloc)?;
    text.extend_from_slice(entry.name.list())?;
    text.push(b' ')?;
    text.extend_from_slice(end.as_bytes())?;
    text.push(b'\n')?;
    Ok(())
}

#[tactic(auto, unfolding(crate::specs::EndsText::keeps_line))]
pub(crate) fn keeps_line(kept: bool) -> &'static [u8]
    ensures { result.now ≡ keeps_line kept }
{
    if kept { b"keeps yes\n" } else { b"keeps no\n" }
}
