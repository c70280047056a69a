//! Findings as people and programs read them. The only error is lack of memory.
ghost use Rattle.std.specs.Prelude.{◌≡◌, ◌++◌, OnOk};
ghost use Rattle.vault_lint.specs.FaultWords.{between_words, finding_words, line_words, mend_words, subject_words};

use crate::finding::Finding;
use base_words::push_number;
use std::alloc::{AllocError, Global};

/// Appends a finding as a line, as compilers write them: `FILE:LINE: SEVERITY: ENTRY KEY: PROBLEM; REMEDY`.
pub fn push_line(
    alloc: Global,
    file: &str,
    finding: &Finding,
    text: &mut Vec<u8>,
) -> Result<(), AllocError> {
    text.extend_from_slice(file.as_bytes())?;
    if finding.line != 0 {
        let line = finding.line;
        let place = format!(in alloc; ":{line}")?;
        text.extend_from_slice(place.as_bytes())?;
    }
    text.extend_from_slice(b": ")?;
    text.extend_from_slice(finding.severity.word().as_bytes())?;
    text.extend_from_slice(b": ")?;
    push_words(finding, text)?;
    text.extend_from_slice(b"\n")
}

/// Appends a finding without its place: `ENTRY KEY: PROBLEM; REMEDY`.
#[tactic(auto, unfolding(crate::specs::FaultWords::finding_words))]
pub(crate) fn push_words(finding: &Finding, text: &mut Vec<u8>) -> Result<(), AllocError>
    ensures { OnOk result (text.new.items ≡ text.old.items ++ finding_words finding.now) }
{
    push_subject(finding.entry.as_bytes(), finding.key.as_bytes(), text)?;
    text.extend_from_slice(finding.problem.as_bytes())?;
    push_mend(finding.mend.as_bytes(), text)
}

// Appends the entry and the key, as far as they are meant.
fn push_subject(entry: &[u8], key: &[u8], text: &mut Vec<u8>) -> Result<(), AllocError>
    ensures { OnOk result (text.new.items ≡ text.old.items ++ subject_words entry.now key.now) }
{
    if entry.is_empty() && key.is_empty() {
        return Ok(());
    }
    text.extend_from_slice(entry)?;
    push_between(entry, key, text)?;
    text.extend_from_slice(key)?;
    text.extend_from_slice(b": ")
}

// Appends a blank between an entry and a key, where both are meant.
fn push_between(entry: &[u8], key: &[u8], text: &mut Vec<u8>) -> Result<(), AllocError>
    ensures { OnOk result (text.new.items ≡ text.old.items ++ between_words entry.now key.now) }
{
    if entry.is_empty() || key.is_empty() {
        Ok(())
    } else {
        text.extend_from_slice(b" ")
    }
}

// Appends what helps, where something does.
fn push_mend(mend: &[u8], text: &mut Vec<u8>) -> Result<(), AllocError>
    ensures { OnOk result (text.new.items ≡ text.old.items ++ mend_words mend.now) }
{
    if mend.is_empty() {
        return Ok(());
    }
    text.extend_from_slice(b"; ")?;
    text.extend_from_slice(mend)
}

/// Appends the number of a line, where one is meant.
pub(crate) fn push_line_number(
    alloc: Global,
    line: u64,
    text: &mut Vec<u8>,
) -> Result<(), AllocError>
    ensures { OnOk result (text.new.items ≡ text.old.items ++ line_words line) }
{
    if line == 0 {
        return Ok(());
    }
    text.extend_from_slice(b"line ")?;
    push_number(alloc, line, text)?;
    text.extend_from_slice(b": ")
}

/// Appends findings as an array of JSON, an object a line.
pub fn push_json(
    alloc: Global,
    findings: &[Finding],
    text: &mut Vec<u8>,
) -> Result<(), AllocError> {
    text.extend_from_slice(b"[")?;
    for index in 0..findings.len() {
        let front: &[u8] = if index == 0 { b"\n  " } else { b",\n  " };
        text.extend_from_slice(front)?;
        push_object(alloc, &findings[index], text)?;
    }
    let end: &[u8] = if findings.is_empty() {
        b"]\n"
    } else {
        b"\n]\n"
    };
    text.extend_from_slice(end)
}

fn push_object(alloc: Global, finding: &Finding, text: &mut Vec<u8>) -> Result<(), AllocError> {
    let severity = finding.severity.word();
    let line = finding.line;
    let front = format!(in alloc;
        "{{\"severity\": \"{severity}\", \"line\": {line}, \"entry\": \""
    )?;
    text.extend_from_slice(front.as_bytes())?;
    push_escaped(finding.entry.as_bytes(), text)?;
    text.extend_from_slice(b"\", \"key\": \"")?;
    push_escaped(finding.key.as_bytes(), text)?;
    text.extend_from_slice(b"\", \"problem\": \"")?;
    push_escaped(finding.problem.as_bytes(), text)?;
    text.extend_from_slice(b"\", \"mend\": \"")?;
    push_escaped(finding.mend.as_bytes(), text)?;
    text.extend_from_slice(b"\"}")
}

// Appends printable ASCII as it stands within a text of JSON.
fn push_escaped(bytes: &[u8], text: &mut Vec<u8>) -> Result<(), AllocError> {
    for byte in bytes {
        if *byte == b'"' || *byte == b'\\' {
            text.push(b'\\')?;
        }
        text.push(*byte)?;
    }
    Ok(())
}
