//! All figures, of the agent and of each entry.
ghost use Rattle.std.specs.Prelude.{◌≡◌, ◌++◌, IfOk, OnOk, map};
ghost use Rattle.agent_pages.specs.Metrics.{agent_sample, ends, entry_front, families_text, family_head, family_kind_word, figure_of, help_line, last_line, metrics_text, moment_sample, offset_ends, one_if, result_sample, result_samples, sample_name, samples_by, samples_in, samples_of, state_sample, state_samples, total_of, type_line};

use crate::board::{Board, BoardRow};
use crate::escapes::push_label_value;
use crate::family::{Column, FAMILIES, FamilyKind, Figure, Format, Tells};
use crate::state::EntryState;
use base_version::build_labels;
use base_words::push_number;
use std::alloc::{AllocError, Global};

/// All figures as a text. The only error is out of memory.
#[tactic(auto, unfolding(crate::specs::Metrics::metrics_text))]
pub(crate) fn metrics_text(
    alloc: Global,
    format: Format,
    board: &Board,
) -> Result<Vec<u8>, AllocError>
    ensures { IfOk result (λ text. text.items ≡ metrics_text format board.now) }
{
    let mut text = Vec::new(alloc);
    push_families(alloc, format, board, &FAMILIES, &mut text)?;
    text.extend_from_slice(last_line(format).as_bytes())?;
    Ok(text)
}

fn last_line(format: Format) -> &'static str
    ensures { result.now ≡ last_line format }
{
    match format {
        Format::Prometheus => "",
        Format::OpenMetrics => "# EOF\n",
    }
}

/// Appends these families.
#[tactic(auto, unfolding(crate::specs::Metrics::family_text))]
fn push_families(
    alloc: Global,
    format: Format,
    board: &Board,
    families: &[(&str, FamilyKind, Tells, &str)],
    text: &mut Vec<u8>,
) -> Result<(), AllocError>
    ensures { OnOk result (text.new.items ≡ text.old.items ++ families_text format board.now (map (λ f. (f.0.now, f.1, f.2, f.3.now)) families.now)) }
{
    for &(name, kind, tells, help) in families {
        let sample = sample_name(alloc, name, kind)?;
        push_head(format, name.as_bytes(), &sample, kind, help, text)?;
        push_samples(alloc, tells, &sample, board, text)?;
    }
    Ok(())
}

/// The name of a family's samples.
#[tactic(auto, unfolding(crate::specs::Metrics::sample_name))]
fn sample_name(alloc: Global, name: &str, kind: FamilyKind) -> Result<Vec<u8>, AllocError>
    ensures { IfOk result (λ sample. sample.items ≡ sample_name name.now kind) }
{
    let mut sample = Vec::from_slice(alloc, name.as_bytes())?;
    sample.extend_from_slice(total_of(kind).as_bytes())?;
    Ok(sample)
}

fn total_of(kind: FamilyKind) -> &'static str
    ensures { result.now ≡ total_of kind }
{
    match kind {
        FamilyKind::Gauge => "",
        FamilyKind::Counter => "_total",
    }
}

// ---- the lines that tell of a family

/// Appends the lines of a family with that name, whose samples are named like this.
#[tactic(auto, unfolding(crate::specs::Metrics::family_head))]
fn push_head(
    format: Format,
    name: &[u8],
    sample: &[u8],
    kind: FamilyKind,
    help: &str,
    text: &mut Vec<u8>,
) -> Result<(), AllocError>
    ensures { OnOk result (text.new.items ≡ text.old.items ++ family_head format name.now sample.now kind help.now) }
{
    match format {
        Format::Prometheus => {
            push_help(sample, help, text)?;
            push_type(sample, kind, text)
        }
        Format::OpenMetrics => {
            push_type(name, kind, text)?;
            push_help(name, help, text)
        }
    }
}

#[tactic(auto, unfolding(crate::specs::Metrics::help_line))]
fn push_help(name: &[u8], help: &str, text: &mut Vec<u8>) -> Result<(), AllocError>
    ensures { OnOk result (text.new.items ≡ text.old.items ++ help_line name.now help.now) }
{
    text.extend_from_slice(b"# HELP ")?;
    text.extend_from_slice(name)?;
    text.extend_from_slice(b" ")?;
    text.extend_from_slice(help.as_bytes())?;
    text.extend_from_slice(b"\n")
}

#[tactic(auto, unfolding(crate::specs::Metrics::type_line))]
fn push_type(name: &[u8], kind: FamilyKind, text: &mut Vec<u8>) -> Result<(), AllocError>
    ensures { OnOk result (text.new.items ≡ text.old.items ++ type_line name.now kind) }
{
    text.extend_from_slice(b"# TYPE ")?;
    text.extend_from_slice(name)?;
    text.extend_from_slice(b" ")?;
    text.extend_from_slice(kind_word(kind).as_bytes())?;
    text.extend_from_slice(b"\n")
}

fn kind_word(kind: FamilyKind) -> &'static str
    ensures { result.now ≡ family_kind_word kind }
{
    match kind {
        FamilyKind::Gauge => "gauge",
        FamilyKind::Counter => "counter",
    }
}

// ---- samples

/// Appends the samples, of that name, of a family that tells this.
fn push_samples(
    alloc: Global,
    tells: Tells,
    sample: &[u8],
    board: &Board,
    text: &mut Vec<u8>,
) -> Result<(), AllocError>
    ensures { OnOk result (text.new.items ≡ text.old.items ++ samples_by tells sample.now board.now) }
{
    match tells {
        Tells::Build => {
            text.extend_from_slice(sample)?;
            text.extend_from_slice(build_labels().as_bytes())?;
            push_end(alloc, b" ", 1, text)
        }
        Tells::ClockOffset => {
            text.extend_from_slice(sample)?;
            push_offset(alloc, board.surroundings.wall, board.broker_now, text)
        }
        Tells::Agent(figure) => push_figure(alloc, sample, figure_of(board, figure), text),
        Tells::Entry(column) => push_rows(alloc, sample, column, board.rows.list(), text),
    }
}

/// Appends what stands before a number, the number, and the end of the line.
#[tactic(auto, unfolding(crate::specs::Metrics::ends))]
fn push_end(alloc: Global, front: &[u8], number: u64, text: &mut Vec<u8>) -> Result<(), AllocError>
    ensures { OnOk result (text.new.items ≡ text.old.items ++ ends front.now number) }
{
    text.extend_from_slice(front)?;
    push_number(alloc, number, text)?;
    text.extend_from_slice(b"\n")
}

/// Appends how far the broker's clock is ahead of the machine's.
#[tactic(auto, unfolding(crate::specs::Metrics::offset_ends))]
fn push_offset(alloc: Global, wall: u64, now: u64, text: &mut Vec<u8>) -> Result<(), AllocError>
    ensures { OnOk result (text.new.items ≡ text.old.items ++ offset_ends wall now) }
{
    let ahead = now.saturating_sub(wall);
    let behind = wall.saturating_sub(now);
    if ahead > 2 {
        push_end(alloc, b" ", ahead, text)
    } else if behind > 2 {
        push_end(alloc, b" -", behind, text)
    } else {
        push_end(alloc, b" ", 0, text)
    }
}

/// Appends the sample of a number of the agent, where it is known.
fn push_figure(
    alloc: Global,
    sample: &[u8],
    number: Option<u64>,
    text: &mut Vec<u8>,
) -> Result<(), AllocError>
    ensures { OnOk result (text.new.items ≡ text.old.items ++ agent_sample sample.now number) }
{
    match number {
        None => Ok(()),
        Some(number) => {
            text.extend_from_slice(sample)?;
            push_end(alloc, b" ", number, text)
        }
    }
}

fn figure_of(board: &Board, figure: Figure) -> Option<u64>
    ensures { result ≡ figure_of board.now figure }
{
    let around = board.surroundings;
    match figure {
        Figure::Written => Some(around.wall),
        Figure::NextWake => around.next_wake,
        Figure::Margin => Some(u64::from(board.margin)),
        Figure::FileIsGood => Some(one_if(around.file.is_good)),
        Figure::FileRead => around.file.at,
        Figure::FileReadGood => around.file.good_at,
        Figure::ChangesAreKept => Some(one_if(around.state_folder.is_open())),
        Figure::Beginnings => Some(board.beginnings),
        Figure::DroppedLines => Some(around.dropped_lines),
        Figure::DroppedAlerts => Some(around.dropped_alerts),
        Figure::Behind => Some(one_if(around.standby.is_behind)),
        Figure::LookedAhead => Some(around.standby.looked_ahead),
        Figure::SteppedIn => Some(around.standby.stepped_in),
    }
}

/// 1 for true, 0 for false.
fn one_if(is: bool) -> u64
    ensures { result ≡ one_if is }
{
    u64::from(is)
}

// ---- of the entries

/// Appends the samples of all entries.
fn push_rows(
    alloc: Global,
    sample: &[u8],
    column: Column,
    rows: &[BoardRow],
    text: &mut Vec<u8>,
) -> Result<(), AllocError>
    ensures { OnOk result (text.new.items ≡ text.old.items ++ samples_in sample.now column rows.now) }
{
    for row in rows {
        push_row(alloc, sample, column, row, text)?;
    }
    Ok(())
}

/// Appends the samples of an entry.
#[tactic(auto, unfolding(crate::specs::Metrics::samples_of))]
fn push_row(
    alloc: Global,
    sample: &[u8],
    column: Column,
    row: &BoardRow,
    text: &mut Vec<u8>,
) -> Result<(), AllocError>
    ensures { OnOk result (text.new.items ≡ text.old.items ++ samples_of sample.now column row.now) }
{
    match column {
        Column::State => push_states(alloc, sample, row, text),
        Column::End => push_moment(alloc, sample, row, row.end, text),
        Column::NeedWanted => push_moment(alloc, sample, row, Some(row.need), text),
        Column::NeedCarried => push_moment(alloc, sample, row, Some(row.carried), text),
        Column::NeedInForce => push_moment(alloc, sample, row, Some(row.in_force), text),
        Column::LastSuccess => push_moment(alloc, sample, row, row.last_success, text),
        Column::Renewals => push_results(alloc, sample, row, text),
    }
}

/// Appends the name of a sample and the label with the name of its entry, which more may follow.
#[tactic(auto, unfolding(crate::specs::Metrics::entry_front))]
fn push_entry(sample: &[u8], row: &BoardRow, text: &mut Vec<u8>) -> Result<(), AllocError>
    ensures { OnOk result (text.new.items ≡ text.old.items ++ entry_front sample.now row.now) }
{
    text.extend_from_slice(sample)?;
    text.extend_from_slice(b"{entry=\"")?;
    push_label_value(row.name.list(), text)?;
    text.extend_from_slice(b"\"")
}

/// Appends a moment of an entry, where it is known.
fn push_moment(
    alloc: Global,
    sample: &[u8],
    row: &BoardRow,
    moment: Option<u64>,
    text: &mut Vec<u8>,
) -> Result<(), AllocError>
    ensures { OnOk result (text.new.items ≡ text.old.items ++ moment_sample sample.now row.now moment) }
{
    match moment {
        None => Ok(()),
        Some(moment) => {
            push_entry(sample, row, text)?;
            push_end(alloc, b"} ", moment, text)
        }
    }
}

/// Appends a sample for each state.
#[tactic(auto, unfolding(crate::specs::Metrics::state_samples))]
fn push_states(
    alloc: Global,
    sample: &[u8],
    row: &BoardRow,
    text: &mut Vec<u8>,
) -> Result<(), AllocError>
    ensures { OnOk result (text.new.items ≡ text.old.items ++ state_samples sample.now row.now) }
{
    push_state(alloc, sample, row, EntryState::Gone, text)?;
    push_state(alloc, sample, row, EntryState::Ended, text)?;
    push_state(alloc, sample, row, EntryState::Waiting, text)?;
    push_state(alloc, sample, row, EntryState::Short, text)?;
    push_state(alloc, sample, row, EntryState::Unknown, text)?;
    push_state(alloc, sample, row, EntryState::Trying, text)?;
    push_state(alloc, sample, row, EntryState::Kept, text)
}

#[tactic(auto, unfolding(crate::specs::Metrics::state_sample))]
fn push_state(
    alloc: Global,
    sample: &[u8],
    row: &BoardRow,
    state: EntryState,
    text: &mut Vec<u8>,
) -> Result<(), AllocError>
    ensures { OnOk result (text.new.items ≡ text.old.items ++ state_sample sample.now row.now state) }
{
    push_entry(sample, row, text)?;
    text.extend_from_slice(b",state=\"")?;
    text.extend_from_slice(state.word().as_bytes())?;
    push_end(
        alloc,
        b"\"} ",
        one_if(state.word() == row.state.word()),
        text,
    )
}

/// Appends a sample for each result of a renewal.
#[tactic(auto, unfolding(crate::specs::Metrics::result_samples))]
fn push_results(
    alloc: Global,
    sample: &[u8],
    row: &BoardRow,
    text: &mut Vec<u8>,
) -> Result<(), AllocError>
    ensures { OnOk result (text.new.items ≡ text.old.items ++ result_samples sample.now row.now) }
{
    push_result(alloc, sample, row, b"granted", row.granted, text)?;
    push_result(alloc, sample, row, b"refused", row.refused, text)?;
    push_result(alloc, sample, row, b"lost", row.lost, text)
}

/// Appends the sample of one result.
#[tactic(auto, unfolding(crate::specs::Metrics::result_sample))]
fn push_result(
    alloc: Global,
    sample: &[u8],
    row: &BoardRow,
    came: &[u8],
    count: u64,
    text: &mut Vec<u8>,
) -> Result<(), AllocError>
    ensures { OnOk result (text.new.items ≡ text.old.items ++ result_sample sample.now row.now came.now count) }
{
    push_entry(sample, row, text)?;
    text.extend_from_slice(b",result=\"")?;
    text.extend_from_slice(came)?;
    push_end(alloc, b"\"} ", count, text)
}
