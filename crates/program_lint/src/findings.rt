//! What is said of the faults and the doubts of an inventory. The only error is lack of memory.
use crate::judged::{Doubted, Judged};
use agent_words::{Demands, StartFault, file_words, unread_words};
use plan_forest::{Forest, Kind};
use state_file::{ReadFault, SettleFault};
use std::alloc::{AllocError, Global};
use vault_inventory::{InvFault, Key};
use vault_lint::{
    Finding, Places, Severity, finding_of, finding_of_fault, kind_of, label, line_of, places_of,
};

/// Appends what is said of an inventory with these bytes: its faults first.
pub(crate) fn push_findings(
    alloc: Global,
    bytes: &[u8],
    demands: Demands,
    judged: &Judged,
    findings: &mut Vec<Finding>,
) -> Result<(), AllocError> {
    let places = places_of(alloc, bytes)?;
    for fault in &judged.faults {
        findings.push(finding_of_start(alloc, bytes, demands, judged, &places, *fault)?)?;
    }
    if let Some(doubted) = &judged.doubted {
        for doubt in &doubted.doubts {
            findings.push(finding_of(alloc, &doubted.subject, doubt)?)?;
        }
    }
    Ok(())
}

fn finding_of_start(
    alloc: Global,
    bytes: &[u8],
    demands: Demands,
    judged: &Judged,
    places: &Places,
    fault: StartFault,
) -> Result<Finding, AllocError> {
    match (fault, &judged.doubted) {
        (StartFault::Inventory(fault), _) => finding_of_fault(alloc, bytes, places, fault),
        (_, Some(doubted)) => of_served(alloc, demands, doubted, places, fault),
        (_, None) => Err(AllocError),
    }
}

// What is said of a fault of an inventory that can be read, in the words in which a start is refused.
fn of_served(
    alloc: Global,
    demands: Demands,
    doubted: &Doubted,
    places: &Places,
    fault: StartFault,
) -> Result<Finding, AllocError> {
    let forest = doubted.subject.served.inventory().forest();
    let entry = entry_of(fault);
    let key = key_of(places, fault);
    let said = file_words(alloc, demands, forest, fault)?;
    let said = std::str::from_utf8(said.list()).unwrap_or("");
    let said = after(said, name_of(forest, entry));
    let said = match key {
        None => said,
        Some(key) => after(said, key.text()),
    };
    let (problem, mend) = said.split_once("; ").unwrap_or((said, ""));
    Ok(Finding {
        severity: Severity::Fault,
        line: match key {
            None => 0,
            Some(key) => line_of(places, entry, key),
        },
        entry: label(alloc, name_of(forest, entry).as_bytes())?,
        key: match key {
            None => "",
            Some(key) => key.text(),
        },
        problem: String::from_str(alloc, problem)?,
        mend: String::from_str(alloc, mend)?,
    })
}

// What follows a word and a colon in front, where they stand there.
fn after<'a>(said: &'a str, word: &str) -> &'a str {
    if word.is_empty() {
        return said;
    }
    match said.strip_prefix(word) {
        None => said,
        Some(rest) => rest.strip_prefix(": ").unwrap_or(said),
    }
}

// The entry that a fault is about.
fn entry_of(fault: StartFault) -> Option<u32> {
    match fault {
        StartFault::NoCredential(entry) | StartFault::NoFile(entry) | StartFault::NoSecret(entry) =>
            { u32::try_from(entry).ok() }
        StartFault::Together(SettleFault::Refused(InvFault::BadValue(entry, _))) => entry,
        _ => None,
    }
}

// The key that a fault is about.
fn key_of(places: &Places, fault: StartFault) -> Option<Key> {
    match fault {
        StartFault::NoMargin | StartFault::SmallMargin => Some(Key::Margin),
        StartFault::NoCredential(_) => {
            Some(by_kind(places, entry_of(fault), Key::Secret, Key::LeaseId))
        }
        _ if entry_of(fault).is_some() => {
            Some(by_kind(places, entry_of(fault), Key::SecretFile, Key::LeaseIdFile))
        }
        _ => None,
    }
}

fn by_kind(places: &Places, entry: Option<u32>, of_token: Key, of_lease: Key) -> Key {
    match entry {
        None => of_token,
        Some(entry) => match kind_of(places, entry) {
            Some(Kind::Lease) => of_lease,
            _ => of_token,
        },
    }
}

// The name of an entry; empty where there is none.
fn name_of(forest: &Forest, entry: Option<u32>) -> &str {
    match entry {
        Some(entry) if entry < forest.len() => {
            std::str::from_utf8(forest.get(entry).name.list()).unwrap_or("")
        }
        _ => "",
    }
}

/// What is said of a file that may not be served whatever it holds.
pub(crate) fn finding_of_file(alloc: Global, fault: ReadFault) -> Result<Finding, AllocError> {
    let said = unread_words(alloc, fault)?;
    let said = std::str::from_utf8(said.list()).unwrap_or("");
    let (problem, mend) = said.split_once("; ").unwrap_or((said, ""));
    Ok(Finding {
        severity: Severity::Fault,
        line: 0,
        entry: String::new(alloc),
        key: "",
        problem: String::from_str(alloc, problem)?,
        mend: String::from_str(alloc, mend)?,
    })
}
