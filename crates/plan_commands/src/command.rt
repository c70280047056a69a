ghost use Rattle.std.specs.Prelude.{◌≡◌};
ghost use Rattle.program_report.specs.Exits.{exit_of, stop_of_input};
ghost use Rattle.program_report.specs.FaultLine.{line_of_stop};
ghost use Rattle.program_report.specs.Told.{Reports};
ghost use Rattle.plan_commands.specs.Obeys.{Obeys, ObeysOver, PlanIn, path_of_command};

use crate::check::run_check;
use crate::ends::run_ends;
use crate::margin::{MarginQuery, run_margin};
use crate::plan::run_plan;
use crate::plan_dates::run_plan_dates;
use crate::reach::run_reach;
use base_device::{InputFault, Sink, Watched};
use base_files::Inputs;
use base_moment::Moment;
use plan_certificate::MOST_CERTIFICATE;
use program_report::{Exit, PROGRAM, Stop};
use std::alloc::Global;
use vault_inventory::MOST_INVENTORY;

/// A command about plans, with the paths of the files that it reads.
#[derive(Debug, Drop)]
pub enum PlanCommand {
    /// The ends of all entries of an inventory once every entry was asked at each of the moments.
    Ends {
        file: String,
        start: Moment,
        moments: Vec<Moment>,
    },
    /// The plan of an inventory from a start on: its certificate, or the same in dates, for people.
    Plan {
        file: String,
        start: Moment,
        dates: bool,
    },
    /// The widest margin of an inventory for so many wake-ups.
    Margin {
        file: String,
        query: MarginQuery,
    },
    /// Until when each entry can live, from a start on; moments as dates, or as numbers.
    Reach {
        file: String,
        start: Moment,
        dates: bool,
    },
    /// The judgement of a certificate by an inventory, and by the start that is asked for, if one is.
    Check {
        file: String,
        certificate: String,
        start: Option<Moment>,
    },
}

impl PlanCommand {
    /// The path of its inventory.
    pub fn inventory(&self) -> &str
        ensures { result.now ≡ path_of_command self.now }
    {
        match self {
            PlanCommand::Ends { file, .. }
            | PlanCommand::Plan { file, .. }
            | PlanCommand::Margin { file, .. }
            | PlanCommand::Reach { file, .. }
            | PlanCommand::Check { file, .. } => file,
        }
    }
}

/// Does what a command asks: [`run_ends`], [`run_plan`], [`run_plan_dates`], [`run_margin`], [`run_reach`] or [`run_check`] over the bytes of its files.
///
/// The inventory is read first, at most [`MOST_INVENTORY`] bytes, and for `check` the certificate after it, at most
/// [`MOST_CERTIFICATE`]. Exit 6, with the line of a read: a file was not read to its end, or is longer. Exit 7: memory for
/// it was refused. Then `out` is untouched.
pub fn obey<I: Inputs, W: Sink, E: Sink>(
    alloc: Global,
    command: &PlanCommand,
    inputs: &mut I,
    out: &mut W,
    errors: &mut E,
) -> Exit
    ensures { Obeys command.now (I.bytes_at inputs.old) result (⟦<W as Watched>⟧.change out.old out.new) (⟦<E as Watched>⟧.change errors.old errors.new) }
{
    match inputs.read(alloc, command.inventory(), MOST_INVENTORY) {
        Ok(inventory) => obey_over(alloc, command, inventory.list(), inputs, out, errors),
        Err(fault) => tell_unread(fault, errors),
    }
}

/// Does what a command asks over the bytes of its inventory. For `check` it reads the certificate.
fn obey_over<I: Inputs, W: Sink, E: Sink>(
    alloc: Global,
    command: &PlanCommand,
    inventory: &[u8],
    inputs: &mut I,
    out: &mut W,
    errors: &mut E,
) -> Exit
    ensures { ObeysOver command.now (I.bytes_at inputs.old) inventory.now result (⟦<W as Watched>⟧.change out.old out.new) (⟦<E as Watched>⟧.change errors.old errors.new) }
{
    match command {
        PlanCommand::Ends { start, moments, .. } => {
            run_ends(alloc, inventory, *start, moments, out, errors)
        }
        PlanCommand::Plan { start, dates, .. } => {
            plan_in(alloc, inventory, *start, *dates, out, errors)
        }
        PlanCommand::Margin { query, .. } => run_margin(alloc, inventory, query, out, errors),
        PlanCommand::Reach { start, dates, .. } => {
            run_reach(alloc, inventory, *start, *dates, out, errors)
        }
        PlanCommand::Check {
            certificate,
            start,
            ..
        } => match inputs.read(alloc, certificate, MOST_CERTIFICATE) {
            Ok(text) => run_check(alloc, inventory, text.list(), *start, out, errors),
            Err(fault) => tell_unread(fault, errors),
        },
    }
}

/// The plan of the bytes of an inventory, as its certificate or in dates.
fn plan_in<W: Sink, E: Sink>(
    alloc: Global,
    inventory: &[u8],
    start: Moment,
    dates: bool,
    out: &mut W,
    errors: &mut E,
) -> Exit
    ensures { PlanIn dates inventory.now start result (⟦<W as Watched>⟧.change out.old out.new) (⟦<E as Watched>⟧.change errors.old errors.new) }
{
    if dates {
        run_plan_dates(alloc, inventory, start, out, errors)
    } else {
        run_plan(alloc, inventory, start, out, errors)
    }
}

/// Writes the line of a file that was not read, and gives the exit.
pub fn tell_unread<E: Sink>(fault: InputFault, errors: &mut E) -> Exit
    ensures exit { result ≡ exit_of (stop_of_input fault) }
    ensures told { Reports (line_of_stop (stop_of_input fault)) (⟦<E as Watched>⟧.change errors.old errors.new) }
{
    let stop = Stop::from(fault);
    stop.report(PROGRAM, errors)
}
