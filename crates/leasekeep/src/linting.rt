use agent_house::Demands;
use agent_system::{SystemSecrets, folder_of};
use base_device::{Counted, Sink};
use program_commands::LintWords;
use program_lint::run_lint;
use program_report::Exit;
use std::io;
use std::rt::{Clock, Files};

/// Shows what is wrong with an inventory, on standard output.
pub fn lint<R, E>(rt: &R, linted: &LintWords<'_>, errors: &mut E) -> Exit
where
    R: Files + AllocGlobal + Print + Clock,
    E: Sink,
{
    let mut out = Counted::new(io::writer(rt));
    let demands = Demands {
        timeout: linted.patience.min(60) as u32,
        names_are_secrets: linted.names_are_secrets,
        earlier: 0,
        behind: None,
    };
    let asked = program_lint::Linted {
        file: linted.file,
        json: linted.json,
        demands,
    };
    let mut secrets = SystemSecrets::new(rt);
    run_lint(
        rt,
        asked,
        folder_of(linted.file),
        &mut secrets,
        &mut out,
        errors,
    )
}
