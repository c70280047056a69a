ghost use Rattle.std.specs.Prelude.{◌≡◌, ◌<◌, ◌++◌, IfOk, OnOk, decimal, length, replicate};
ghost use Rattle.std.specs.Result.{IfErr};
ghost use Rattle.program_report.specs.declared.stop.Stop.TheVariants.{Memory};
ghost use Rattle.plan_commands.specs.code.Making.{MakesOf, MakesOutcome};
ghost use Rattle.plan_commands.specs.ReachRun.{ReachTexts};
ghost use Rattle.plan_commands.specs.EndsText.{keeps_line};
ghost use Rattle.plan_commands.specs.ReachText.{AreReachLines, IsMomentWord, IsNeedWord, IsReachLine, IsUntilWord, SaysWhetherKept, column, columns, four_word_line, head, is_short, line_end, padded, widest, word_line};
ghost use Rattle.plan_commands.specs.Running.{NoHalts};
ghost use Rattle.vault_start.specs.Start.{inventory_at};

use crate::bound::bound_of;
use crate::ends_text::keeps_line;
use crate::outcome::Outcome;
use base_moment::{Moment, Text, date_text};
use plan_forest::Forest;
use plan_needs::{NeedsFault, carry};
use plan_search::shortfall;
use program_report::{Exit, Stop};
use std::alloc::{AllocError, Global};
use vault_start::read_at;

/// As wide as a date.
const DATE_WIDTH: usize = 20;

/// The words of a line.
#[derive(Clone, Copy, Debug)]
struct Row<'a> {
    name: &'a [u8],
    until: &'a [u8],
    by: &'a [u8],
    need: &'a [u8],
}

/// How lines are written.
#[derive(Clone, Copy, Debug)]
struct Layout {
    /// With dates, which is in columns.
    dates: bool,
    /// How wide a column of names is.
    width: usize,
}

/// The whole text of the command `reach`, or why there is none.
pub(crate) fn reach_text(
    alloc: Global,
    inventory: &[u8],
    start: Moment,
    dates: bool,
) -> Result<Outcome, Stop>
    ensures { MakesOutcome (ReachTexts start dates) NoHalts (inventory_at start inventory.now) result }
{
    let inventory = read_at(alloc, inventory, start)?;
    reaches_text(alloc, inventory.forest(), start, dates)
}

/// The text of a forest, from its names and numbers alone.
#[tactic(auto, using(crate::proofs::Reaching::text_of))]
fn reaches_text(alloc: Global, forest: &Forest, start: Moment, dates: bool) -> Result<Outcome, Stop>
    ensures { MakesOf (ReachTexts start dates) NoHalts forest.now result }
{
    let layout = Layout {
        dates,
        width: names_width(forest),
    };
    let lines = lines_of(alloc, forest, start, layout)?;
    let kept = is_kept(alloc, forest, start)?;
    Ok(Outcome {
        exit: Exit::Done,
        text: whole_text(alloc, layout, lines.list(), kept)?,
    })
}

/// The head, the lines, and whether some plan keeps.
fn whole_text(alloc: Global, layout: Layout, lines: &[u8], kept: bool) -> Result<Text, AllocError>
    ensures { IfOk result (λ text. text ≡ head layout.dates layout.width ++ (lines.now ++ keeps_line kept)) }
{
    let mut text = Vec::new(alloc);
    push_head(alloc, layout, &mut text)?;
    text.extend_from_slice(lines)?;
    text.extend_from_slice(keeps_line(kept))?;
    Ok(Text::from_vec(text))
}

/// Appends the line that names the columns, where there are columns.
fn push_head(alloc: Global, layout: Layout, text: &mut Vec<u8>) -> Result<(), AllocError>
    ensures { OnOk result (text.new.items ≡ text.old.items ++ head layout.dates layout.width) }
{
    if !layout.dates {
        return Ok(());
    }
    let head = Row {
        name: b"NAME",
        until: b"UNTIL",
        by: b"BY",
        need: b"NEED",
    };
    push_columns(alloc, head, layout.width, text)?;
    text.extend_from_slice(line_end(false))?;
    Ok(())
}

/// The length of the longest name, or of `NAME`.
#[tactic(auto, using(crate::proofs::Reaching::widest_none, crate::proofs::Reaching::widest_more))]
fn names_width(forest: &Forest) -> usize
    ensures { result ≡ widest forest.now.entries (length forest.now.entries) }
{
    let mut width = 4;
    for index in 0..forest.len() {
        width = width.max(forest.get(index).name.list().len());
    }
    width
}

/// Whether some plan from `start` on keeps. The only error is out of memory.
fn is_kept(alloc: Global, forest: &Forest, start: Moment) -> Result<bool, Stop>
    ensures kept { IfOk result (λ kept. SaysWhetherKept forest.now start kept) }
    ensures memory { IfErr result (λ stop. stop ≡ Memory) }
{
    match carry(alloc, forest, start) {
        Ok(carried) => Ok(shortfall(forest, &carried, start).is_none()),
        Err(NeedsFault::OutOfMemory) => Err(Stop::Memory),
    }
}

/// The line of each entry. The only error is out of memory.
fn lines_of(alloc: Global, forest: &Forest, start: Moment, layout: Layout) -> Result<Text, Stop>
    requires { layout.width ≡ widest forest.now.entries (length forest.now.entries) }
    ensures lines { IfOk result (λ lines. AreReachLines forest.now start layout.dates (length forest.now.entries) lines) }
    ensures memory { IfErr result (λ stop. stop ≡ Memory) }
{
    let mut lines = Vec::new(alloc);
    for index in 0..forest.len() {
        let line = reach_line(alloc, forest, start, layout, index)?;
        lines.extend_from_slice(line.list())?;
    }
    Ok(Text::from_vec(lines))
}

/// The line of an entry. The only error is out of memory.
#[tactic(auto, using(crate::proofs::Reaching::line_of))]
fn reach_line(
    alloc: Global,
    forest: &Forest,
    start: Moment,
    layout: Layout,
    index: u32,
) -> Result<Text, Stop>
    requires width { layout.width ≡ widest forest.now.entries (length forest.now.entries) }
    requires within { index < length forest.now.entries }
    ensures line { IfOk result (λ line. IsReachLine forest.now start layout.dates index line) }
    ensures memory { IfErr result (λ stop. stop ≡ Memory) }
{
    let bound = bound_of(forest, start, index);
    let until = until_word(alloc, layout.dates, bound.most)?;
    let need = need_word(alloc, layout.dates, forest.get(index).need)?;
    let row = Row {
        name: forest.get(index).name.list(),
        until: until.list(),
        by: forest.get(bound.by).name.list(),
        need: need.list(),
    };
    let short = is_short(start, bound.most, forest.get(index).need);
    Ok(spell(alloc, row, layout, short)?)
}

/// Whether a need comes after `start`, and after the moment at which the entry ends at the latest.
fn is_short(start: Moment, most: Option<u64>, need: u64) -> bool
    ensures { result ≡ is_short start most need }
{
    match most {
        None => false,
        Some(most) => start.get() < need && most < need,
    }
}

/// The line of these words: in columns, where there are columns.
fn spell(alloc: Global, row: Row<'_>, layout: Layout, short: bool) -> Result<Text, AllocError>
    ensures { IfOk result (λ line. line ≡ word_line layout.dates layout.width short row.entry.name.now row.entry.until.now row.entry.by.now row.entry.need.now) }
{
    if layout.dates {
        columns_line(alloc, row, layout.width, short)
    } else {
        plain_line(alloc, row)
    }
}

/// The words, parted by blanks, and a line feed.
#[tactic(auto, unfolding(crate::specs::ReachText::four_word_line))]
fn plain_line(alloc: Global, row: Row<'_>) -> Result<Text, AllocError>
    ensures { IfOk result (λ line. line ≡ four_word_line row.entry.name.now row.entry.until.now row.entry.by.now row.entry.need.now) }
{
    let mut line = Vec::new(alloc);
    line.extend_from_slice(row.name)?;
    line.push(b' ')?;
    line.extend_from_slice(row.until)?;
    line.push(b' ')?;
    line.extend_from_slice(row.by)?;
    line.push(b' ')?;
    line.extend_from_slice(row.need)?;
    line.push(b'\n')?;
    Ok(Text::from_vec(line))
}

/// The words in columns, `SHORT` where that is to be said, and a line feed.
fn columns_line(alloc: Global, row: Row<'_>, width: usize, short: bool) -> Result<Text, AllocError>
    ensures { IfOk result (λ line. line ≡ columns width row.entry.name.now row.entry.until.now row.entry.by.now row.entry.need.now ++ line_end short) }
{
    let mut line = Vec::new(alloc);
    push_columns(alloc, row, width, &mut line)?;
    line.extend_from_slice(line_end(short))?;
    Ok(Text::from_vec(line))
}

/// Appends the words in columns.
#[tactic(auto, using(crate::proofs::Reaching::in_columns))]
fn push_columns(
    alloc: Global,
    row: Row<'_>,
    width: usize,
    line: &mut Vec<u8>,
) -> Result<(), AllocError>
    ensures { OnOk result (line.new.items ≡ line.old.items ++ columns width row.entry.name.now row.entry.until.now row.entry.by.now row.entry.need.now) }
{
    push_column(alloc, row.name, width, line)?;
    push_column(alloc, row.until, DATE_WIDTH, line)?;
    push_column(alloc, row.by, width, line)?;
    line.extend_from_slice(row.need)?;
    Ok(())
}

/// Appends a text in its column, and the blanks before the next one.
#[tactic(auto, unfolding(crate::specs::ReachText::column))]
fn push_column(
    alloc: Global,
    text: &[u8],
    width: usize,
    line: &mut Vec<u8>,
) -> Result<(), AllocError>
    ensures { OnOk result (line.new.items ≡ line.old.items ++ column width text.now) }
{
    push_padded(alloc, text, width, line)?;
    line.extend_from_slice(b"  ")?;
    Ok(())
}

/// Appends a text, and blanks up to a width.
#[tactic(auto, unfolding(crate::specs::ReachText::padded))]
fn push_padded(
    alloc: Global,
    text: &[u8],
    width: usize,
    line: &mut Vec<u8>,
) -> Result<(), AllocError>
    ensures { OnOk result (line.new.items ≡ line.old.items ++ padded width text.now) }
{
    let blanks = blanks(alloc, width.saturating_sub(text.len()))?;
    line.extend_from_slice(text)?;
    line.extend_from_slice(&blanks)?;
    Ok(())
}

fn blanks(alloc: Global, count: usize) -> Result<Vec<u8>, AllocError>
    ensures { IfOk result (λ blanks. blanks.items ≡ replicate count 32) }
{
    let mut blanks = Vec::new(alloc);
    for _ in 0..count {
        blanks.push(b' ')?;
    }
    Ok(blanks)
}

#[tactic(auto, unfolding(crate::specs::ReachText::line_end))]
fn line_end(short: bool) -> &'static [u8]
    ensures { result.now ≡ line_end short }
{
    if short { b"  SHORT\n" } else { b"\n" }
}

fn until_word(alloc: Global, dates: bool, most: Option<u64>) -> Result<Text, Stop>
    ensures word { IfOk result (λ word. IsUntilWord dates most word) }
    ensures memory { IfErr result (λ stop. stop ≡ Memory) }
{
    match most {
        None => Ok(Text::of(alloc, b"always")?),
        Some(most) => moment_word(alloc, dates, most),
    }
}

fn need_word(alloc: Global, dates: bool, need: u64) -> Result<Text, Stop>
    ensures word { IfOk result (λ word. IsNeedWord dates need word) }
    ensures memory { IfErr result (λ stop. stop ≡ Memory) }
{
    if need == 0 {
        return number_word(alloc, need);
    }
    moment_word(alloc, dates, need)
}

/// A moment as a number, or as a date where that is asked for and it has one.
pub(crate) fn moment_word(alloc: Global, dates: bool, seconds: u64) -> Result<Text, Stop>
    ensures word { IfOk result (λ word. IsMomentWord dates seconds word) }
    ensures memory { IfErr result (λ stop. stop ≡ Memory) }
{
    if !dates {
        return number_word(alloc, seconds);
    }
    match Moment::new(seconds) {
        None => number_word(alloc, seconds),
        Some(moment) => match date_text(alloc, moment) {
            Ok(text) => Ok(text),
            Err(_) => Err(Stop::Memory),
        },
    }
}

fn number_word(alloc: Global, number: u64) -> Result<Text, Stop>
    ensures word { IfOk result (λ word. word ≡ decimal number) }
    ensures memory { IfErr result (λ stop. stop ≡ Memory) }
{
    let digits = number.to_string(alloc)?;
    Ok(Text::of(alloc, digits.as_bytes())?)
}
