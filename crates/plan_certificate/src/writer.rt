ghost use Rattle.std.specs.Prelude.{◌≡◌, ◌≤◌, ◌<◌, ◌++◌, ◌∷◌, [], All, IfOk, OnOk, decimal, flat_map, length};
ghost use Rattle.plan_rule.specs.Runs.{IsAmong, wake_count};
ghost use Rattle.plan_certificate.specs.CertificateText.{CanBeWritten, certificate_text, end_line_text, header_text, name_of_entry, run_text, start_text, unkeepable_text};
ghost use Rattle.plan_certificate.specs.Printing.{certified};
ghost use Rattle.plan_certificate.specs.declared.cert.Body.TheVariants.{Runs, Unkeepable};
ghost use Rattle.plan_certificate.specs.declared.cert.Version.TheVariants.{Two};

use crate::cert::Body;
use base_moment::{Moment, Text};
use base_words::push_number;
use plan_forest::Forest;
use plan_rule::{LIMIT, Run};
use std::alloc::{AllocError, Global};

/// The text of a certificate of version 2 over a forest: its start, and its wake-ups or the pair that cannot be kept.
///
/// The only error is out of memory.
pub fn text_of(
    alloc: Global,
    forest: &Forest,
    start: Moment,
    body: &Body,
) -> Result<Text, AllocError>
    requires { CanBeWritten forest.now.entries body.now }
    ensures { IfOk result (λ text. text ≡ certificate_text forest.now.entries (certified start body.now)) }
{
    match body {
        Body::Runs(runs) => text_of_runs(alloc, forest, start, runs.list()),
        Body::Unkeepable { entry, needed } => text_of_pair(alloc, forest, start, *entry, *needed),
    }
}

/// The text of a certificate of these runs.
#[tactic(auto, unfolding(crate::specs::CertificateText::certificate_text, crate::specs::CertificateText::body_text))]
pub(crate) fn text_of_runs(
    alloc: Global,
    forest: &Forest,
    start: Moment,
    runs: &[Run],
) -> Result<Text, AllocError>
    requires among { All (IsAmong (length forest.now.entries)) runs.now }
    requires few { wake_count runs.now ≤ LIMIT }
    ensures { IfOk result (λ text. text ≡ certificate_text forest.now.entries (certified start (Runs runs.now))) }
{
    let mut text = Vec::new(alloc);
    push_head(alloc, start.get(), &mut text)?;
    push_runs(alloc, forest, runs, &mut text)?;
    Ok(Text::from_vec(text))
}

/// The text of a certificate that this pair cannot be kept.
#[tactic(auto, unfolding(crate::specs::CertificateText::certificate_text, crate::specs::CertificateText::body_text))]
pub(crate) fn text_of_pair(
    alloc: Global,
    forest: &Forest,
    start: Moment,
    entry: u32,
    needed: u32,
) -> Result<Text, AllocError>
    requires entry { entry < length forest.now.entries }
    requires needed { needed < length forest.now.entries }
    ensures { IfOk result (λ text. text ≡ certificate_text forest.now.entries (certified start (Unkeepable entry needed))) }
{
    let mut text = Vec::new(alloc);
    push_head(alloc, start.get(), &mut text)?;
    push_unkeepable(forest, entry, needed, &mut text)?;
    Ok(Text::from_vec(text))
}

/// Appends the first two lines.
#[tactic(auto, unfolding(crate::specs::CertificateText::header_text, crate::specs::CertificateText::start_text, crate::specs::CertificateText::line_text))]
fn push_head(alloc: Global, start: u64, text: &mut Vec<u8>) -> Result<(), AllocError>
    ensures { OnOk result (text.new.items ≡ text.old.items ++ (header_text Two ++ start_text start)) }
{
    text.extend_from_slice(b"leasekeep-plan 2\nstart ")?;
    push_number(alloc, start, text)?;
    text.push(b'\n')?;
    Ok(())
}

/// Appends a line for each run, and the line `end` with the number of their wake-ups.
fn push_runs(
    alloc: Global,
    forest: &Forest,
    runs: &[Run],
    text: &mut Vec<u8>,
) -> Result<(), AllocError>
    requires among { All (IsAmong (length forest.now.entries)) runs.now }
    requires few { wake_count runs.now ≤ LIMIT }
    ensures { OnOk result (text.new.items ≡ text.old.items ++ (flat_map (run_text Two forest.now.entries) runs.now ++ end_line_text (wake_count runs.now))) }
{
    push_lines(alloc, forest, runs, text)?;
    push_end(alloc, count_of(runs), text)
}

fn push_lines(
    alloc: Global,
    forest: &Forest,
    runs: &[Run],
    text: &mut Vec<u8>,
) -> Result<(), AllocError>
    requires { All (IsAmong (length forest.now.entries)) runs.now }
    ensures { OnOk result (text.new.items ≡ text.old.items ++ flat_map (run_text Two forest.now.entries) runs.now) }
{
    for run in runs {
        push_run(alloc, forest, *run, text)?;
    }
    Ok(())
}

/// How many wake-ups the runs have.
fn count_of(runs: &[Run]) -> u64
    requires { wake_count runs.now ≤ LIMIT }
    ensures { result ≡ wake_count runs.now }
{
    let mut total: u64 = 0;
    for run in runs {
        total += run.count;
    }
    total
}

#[tactic(auto, unfolding(crate::specs::CertificateText::run_text, crate::specs::CertificateText::line_text))]
fn push_run(alloc: Global, forest: &Forest, run: Run, text: &mut Vec<u8>) -> Result<(), AllocError>
    requires { IsAmong (length forest.now.entries) run }
    ensures { OnOk result (text.new.items ≡ text.old.items ++ run_text Two forest.now.entries run) }
{
    text.extend_from_slice(b"run ")?;
    push_spaced(alloc, run.first, text)?;
    push_spaced(alloc, run.step, text)?;
    push_spaced(alloc, run.count, text)?;
    push_pair(forest, run.entry, run.needed, text)
}

#[tactic(auto, unfolding(crate::specs::CertificateText::end_line_text, crate::specs::CertificateText::line_text))]
fn push_end(alloc: Global, count: u64, text: &mut Vec<u8>) -> Result<(), AllocError>
    ensures { OnOk result (text.new.items ≡ text.old.items ++ end_line_text count) }
{
    text.extend_from_slice(b"end ")?;
    push_number(alloc, count, text)?;
    text.push(b'\n')?;
    Ok(())
}

#[tactic(auto, unfolding(crate::specs::CertificateText::unkeepable_text, crate::specs::CertificateText::line_text))]
fn push_unkeepable(
    forest: &Forest,
    entry: u32,
    needed: u32,
    text: &mut Vec<u8>,
) -> Result<(), AllocError>
    requires entry { entry < length forest.now.entries }
    requires needed { needed < length forest.now.entries }
    ensures { OnOk result (text.new.items ≡ text.old.items ++ unkeepable_text forest.now.entries entry needed) }
{
    text.extend_from_slice(b"unkeepable ")?;
    push_pair(forest, entry, needed, text)
}

/// Appends a number and a space.
fn push_spaced(alloc: Global, number: u64, text: &mut Vec<u8>) -> Result<(), AllocError>
    ensures { OnOk result (text.new.items ≡ text.old.items ++ (decimal number ++ 32 ∷ [])) }
{
    push_number(alloc, number, text)?;
    text.push(b' ')?;
    Ok(())
}

/// Appends two names, the last words of a line, and its line feed.
#[tactic(auto, unfolding(crate::specs::CertificateText::name_of_entry))]
fn push_pair(forest: &Forest, entry: u32, needed: u32, text: &mut Vec<u8>) -> Result<(), AllocError>
    requires entry { entry < length forest.now.entries }
    requires needed { needed < length forest.now.entries }
    ensures { OnOk result (text.new.items ≡ text.old.items ++ (name_of_entry forest.now.entries entry ++ (32 ∷ (name_of_entry forest.now.entries needed ++ 10 ∷ [])))) }
{
    text.extend_from_slice(forest.get(entry).name.list())?;
    text.push(b' ')?;
    text.extend_from_slice(forest.get(needed).name.list())?;
    text.push(b'\n')?;
    Ok(())
}
