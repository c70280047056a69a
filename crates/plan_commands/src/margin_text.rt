ghost use Rattle.std.specs.Prelude.{◌≡◌, ◌≤◌, ◌++◌, IfOk, None, OnOk, Some};
ghost use Rattle.std.specs.Result.{IfErr};
ghost use Rattle.plan_rule.specs.declared.limit.TheConstants.{LIMIT};
ghost use Rattle.plan_search.specs.Widest.{IsFewest, IsWidest};
ghost use Rattle.program_report.specs.declared.exit.Exit.TheVariants as exits;
ghost use Rattle.program_report.specs.declared.stop.Stop.TheVariants.{Memory};
ghost use Rattle.plan_commands.specs.code.Making.{MakesOf, MakesOutcome};
ghost use Rattle.plan_commands.specs.code.MarginMaking.{HaltsFrom, TextsFrom};
ghost use Rattle.plan_commands.specs.MarginRun.{MarginHalts, MarginTexts};
ghost use Rattle.plan_commands.specs.MarginText.{AreOwnAndWidest, IsWidestLine, asked_about, margin_line};
ghost use Rattle.vault_start.specs.Start.{inventory_at};

use crate::margin::MarginQuery;
use crate::no_margin::{no_margin, unkeepable_line};
use crate::outcome::Outcome;
use crate::renewed::renew_all;
use base_moment::{Moment, Text};
use base_words::push_number;
use plan_forest::Forest;
use plan_search::{Decision, LIMIT, PlanFault, Shortfall, Widest, plan, widest_margin};
use program_report::{Exit, Stop};
use std::alloc::{AllocError, Global};
use vault_start::read_at;

/// The whole text of the command `margin`, or why there is none.
pub(crate) fn margin_text(
    alloc: Global,
    inventory: &[u8],
    query: &MarginQuery,
) -> Result<Outcome, Stop>
    ensures { MakesOutcome (MarginTexts query.now) (MarginHalts query.now) (inventory_at query.now.start inventory.now) result }
{
    let inventory = read_at(alloc, inventory, query.start)?;
    let (forest, _credentials) = inventory.into_parts();
    answer_about(alloc, forest, query)
}

/// The text about a forest, which is renewed first where that is asked.
fn answer_about(alloc: Global, mut forest: Forest, query: &MarginQuery) -> Result<Outcome, Stop>
    ensures { MakesOf (MarginTexts query.now) (MarginHalts query.now) forest result }
{
    renew_if_asked(query, &mut forest);
    answer(alloc, &mut forest, query.start, query.most_wakes)
}

/// Makes of a forest the one that is asked about.
fn renew_if_asked(query: &MarginQuery, forest: &mut Forest)
    ensures { forest.new ≡ asked_about query.now forest.old }
{
    if query.renewed {
        renew_all(forest, query.start);
    }
}

/// The text about a forest as it stands.
fn answer(
    alloc: Global,
    forest: &mut Forest,
    start: Moment,
    most_wakes: Option<u64>,
) -> Result<Outcome, Stop>
    ensures { MakesOf (TextsFrom start most_wakes) (HaltsFrom start most_wakes) forest.old result }
{
    match most_wakes {
        None => own_and_widest(alloc, forest, start),
        Some(most) => widest_within(alloc, forest, start, most),
    }
}

/// The text where it is not said how many wake-ups may be spent.
#[tactic(auto, using(plan_certificate::proofs::Printing::decided_is_of))]
fn own_and_widest(alloc: Global, forest: &mut Forest, start: Moment) -> Result<Outcome, Stop>
    ensures { MakesOf (TextsFrom start None) (HaltsFrom start None) forest.old result }
{
    let _entries = forest.len();
    match plan(alloc, forest, start) {
        Ok(Decision::Keep(plan)) => two_lines(alloc, forest, start, plan.len()),
        Ok(Decision::Unkeepable { entry, needed }) => {
            let own = unkeepable_line(alloc, forest, Shortfall { entry, needed })?;
            no_margin(alloc, forest, start, own)
        }
        Ok(Decision::TooLong) => Err(Stop::TooLong),
        Err(PlanFault::OutOfMemory) => Err(Stop::Memory),
    }
}

/// The text where so many wake-ups may be spent.
fn widest_within(
    alloc: Global,
    forest: &mut Forest,
    start: Moment,
    most: u64,
) -> Result<Outcome, Stop>
    ensures { MakesOf (TextsFrom start (Some most)) (HaltsFrom start (Some most)) forest.old result }
{
    match widest_margin(alloc, forest, start, most.min(LIMIT)) {
        Ok(Some(widest)) => {
            let mut text = Vec::new(alloc);
            push_line(alloc, widest.margin, widest.wakes, &mut text)?;
            Ok(Outcome {
                exit: Exit::Done,
                text: Text::from_vec(text),
            })
        }
        Ok(None) => {
            let none = Text::of(alloc, b"none\n")?;
            no_margin(alloc, forest, start, none)
        }
        Err(PlanFault::OutOfMemory) => Err(Stop::Memory),
    }
}

/// The line of the forest's own margin, with which the least plan has `own` wake-ups, and that of the widest.
fn two_lines(alloc: Global, forest: &mut Forest, start: Moment, own: u64) -> Result<Outcome, Stop>
    requires few { own ≤ LIMIT }
    requires fewest { IsFewest forest.old start own }
    ensures text { IfOk result (λ outcome. (outcome.exit ≡ exits.Done) × AreOwnAndWidest forest.old start outcome.text) }
    ensures memory { IfErr result (λ stop. stop ≡ Memory) }
{
    let margin = forest.margin();
    let widest = widest_for(alloc, forest, start, own)?;
    let mut text = Vec::new(alloc);
    push_line(alloc, margin, own, &mut text)?;
    push_line(alloc, widest.margin, widest.wakes, &mut text)?;
    Ok(Outcome {
        exit: Exit::Done,
        text: Text::from_vec(text),
    })
}

/// The widest margin with which the least plan has no more wake-ups than with the forest's own, which are so many.
fn widest_for(alloc: Global, forest: &mut Forest, start: Moment, own: u64) -> Result<Widest, Stop>
    requires few { own ≤ LIMIT }
    requires fewest { IsFewest forest.old start own }
    ensures widest { IfOk result (λ w. IsWidest forest.old start own w) }
    ensures memory { IfErr result (λ stop. stop ≡ Memory) }
{
    // Its contract says that the forest is one, so its own margin is one that its entries allow.
    let _entries = forest.len();
    match widest_margin(alloc, forest, start, own) {
        Ok(widest) => Ok(widest.unwrap()),
        Err(PlanFault::OutOfMemory) => Err(Stop::Memory),
    }
}

/// Appends `MARGIN WAKES` and a line feed.
#[tactic(auto, unfolding(crate::specs::MarginText::margin_line))]
fn push_line(alloc: Global, margin: u32, wakes: u64, text: &mut Vec<u8>) -> Result<(), AllocError>
    ensures { OnOk result (text.new.items ≡ text.old.items ++ margin_line margin wakes) }
{
    push_number(alloc, margin as u64, text)?;
    text.push(b' ')?;
    push_number(alloc, wakes, text)?;
    text.push(b'\n')?;
    Ok(())
}
