ghost use Rattle.std.specs.Prelude.{◌≡◌, ◌<◌, IfOk, MatchOption, length};
ghost use Rattle.std.specs.Result.{IfErr};
ghost use Rattle.plan_search.specs.Decides.{SomeKeeps};
ghost use Rattle.plan_certificate.specs.CertificateText.{unkeepable_text};
ghost use Rattle.program_report.specs.declared.stop.Stop.TheVariants.{Memory};
ghost use Rattle.plan_commands.specs.code.MarginMaking.{IsPair, IsRefusal};
ghost use Rattle.plan_commands.specs.MarginText.{with_least};

use crate::outcome::Outcome;
use base_moment::{Moment, Text};
use plan_forest::Forest;
use plan_needs::{NeedsFault, carry};
use plan_search::{Shortfall, shortfall};
use program_report::{Exit, Stop};
use std::alloc::{AllocError, Global};

/// The text for no margin: the pair that no plan keeps even with the least margin, or where there is none, the other text.
/// The only error is that memory was refused.
pub(crate) fn no_margin(
    alloc: Global,
    forest: &mut Forest,
    start: Moment,
    other: Text,
) -> Result<Outcome, Stop>
    ensures text { IfOk result (λ outcome. IsRefusal forest.old start other outcome.exit outcome.text) }
    ensures memory { IfErr result (λ stop. stop ≡ Memory) }
{
    let text = match pair_with_least(alloc, forest, start)? {
        Some(pair) => unkeepable_line(alloc, forest, pair)?,
        None => other,
    };
    Ok(Outcome {
        exit: Exit::Unkeepable,
        text,
    })
}

/// The pair that no plan keeps with the margin of one second, `None` where some plan does. The forest is as before.
fn pair_with_least(
    alloc: Global,
    forest: &mut Forest,
    start: Moment,
) -> Result<Option<Shortfall>, Stop>
    ensures pair { IfOk result (λ pair. MatchOption pair (SomeKeeps (with_least forest.old) start) (λ p. IsPair (with_least forest.old) start p.entry p.needed)) }
    ensures memory { IfErr result (λ stop. stop ≡ Memory) }
    ensures unchanged { forest.new ≡ forest.old }
{
    // Its contract says that the forest is one, so its own margin can be set again.
    let _entries = forest.len();
    let own = forest.margin();
    forest.set_margin(1);
    let pair = pair_of(alloc, forest, start);
    forest.set_margin(own);
    pair
}

/// The pair that no plan keeps with the forest's own margin, `None` where some plan does.
fn pair_of(alloc: Global, forest: &Forest, start: Moment) -> Result<Option<Shortfall>, Stop>
    ensures pair { IfOk result (λ pair. MatchOption pair (SomeKeeps forest.now start) (λ p. IsPair forest.now start p.entry p.needed)) }
    ensures memory { IfErr result (λ stop. stop ≡ Memory) }
{
    // Its contract says that the forest is one, so that the two are among its entries.
    let _entries = forest.len();
    match carry(alloc, forest, start) {
        Ok(carried) => Ok(shortfall(forest, &carried, start)),
        Err(NeedsFault::OutOfMemory) => Err(Stop::Memory),
    }
}

/// `unkeepable ENTRY NEEDED` and a line feed.
#[tactic(auto, unfolding(plan_certificate::specs::CertificateText::unkeepable_text, plan_certificate::specs::CertificateText::line_text, plan_certificate::specs::CertificateText::name_of_entry))]
pub(crate) fn unkeepable_line(
    alloc: Global,
    forest: &Forest,
    pair: Shortfall,
) -> Result<Text, AllocError>
    requires entry { pair.entry < length forest.now.entries }
    requires needed { pair.needed < length forest.now.entries }
    ensures { IfOk result (λ line. line ≡ unkeepable_text forest.now.entries pair.entry pair.needed) }
{
    let mut line = Vec::new(alloc);
    line.extend_from_slice(b"unkeepable ")?;
    line.extend_from_slice(forest.get(pair.entry).name.list())?;
    line.push(b' ')?;
    line.extend_from_slice(forest.get(pair.needed).name.list())?;
    line.push(b'\n')?;
    Ok(Text::from_vec(line))
}
