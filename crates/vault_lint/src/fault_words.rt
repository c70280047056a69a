//! What is said of a text that is no inventory: its first fault, with its place and what helps. No part of a value is in it, since that
//! may be a credential; the name of an entry is, unless it may be a token's value.
ghost use Rattle.std.specs.Prelude.{◌≡◌, ◌≤◌, ◌++◌, IfOk, codes, filter, length, string_bytes};
ghost use Rattle.std.specs.Str.{is_utf8};
ghost use Rattle.vault_inventory.specs.Keys.{key_text};
ghost use Rattle.vault_lint.specs.FaultPlaces.{IsSomeLine, is_line_feed, line_at};
ghost use Rattle.vault_lint.specs.FaultWords.{IsLineOf, IsSaidOf, called_of, entry_of, expected_at, fault_entry, fault_key, fault_mend, fault_problem, keys_words, over_key, syntax_mend, syntax_problem, tree_key, tree_key_text, tree_mend, tree_problem, unknown_mend, unknown_problem, value_problem};

use crate::fault_names::called_if;
use crate::finding::{Finding, Severity};
use crate::place::{has_key, kind_of, line_of, unknown_line};
use crate::printing::{push_line_number, push_words};
use crate::reading::places_of;
use crate::subject::Places;
use base_moment::Text;
use plan_forest::{Kind, TreeFault};
use std::alloc::{AllocError, Global};
use vault_inventory::{InvFault, Key};

/// What is said of the first fault of a text that is no inventory, in one line. The only error is lack of memory, here and in what
/// follows.
pub fn words_of_fault(alloc: Global, bytes: &[u8], fault: InvFault) -> Result<Text, AllocError>
    ensures { IfOk result (IsSaidOf bytes.now fault) }
{
    let places = places_of(alloc, bytes)?;
    let finding = finding_of_fault(alloc, bytes, &places, fault)?;
    let mut text = Vec::new(alloc);
    push_line_number(alloc, finding.line, &mut text)?;
    push_words(&finding, &mut text)?;
    Ok(Text::from_vec(text))
}

/// The same as a finding, where the text has what.
pub fn finding_of_fault(
    alloc: Global,
    bytes: &[u8],
    places: &Places,
    fault: InvFault,
) -> Result<Finding, AllocError>
    ensures line { IfOk result (λ f. IsLineOf bytes.now places.now.marks.items places.now.heads.items fault f.line) }
    ensures entry { IfOk result (λ f. string_bytes f.entry ≡ fault_entry bytes.now fault) }
    ensures key { IfOk result (λ f. f.key.now ≡ fault_key places.now.marks.items places.now.heads.items fault) }
    ensures problem { IfOk result (λ f. string_bytes f.problem ≡ fault_problem bytes.now fault) }
    ensures mend { IfOk result (λ f. string_bytes f.mend ≡ fault_mend bytes.now places.now.marks.items places.now.heads.items fault) }
{
    if matches!(fault, InvFault::OutOfMemory) {
        return Err(AllocError);
    }
    Ok(Finding {
        severity: Severity::Fault,
        line: line_of_fault(alloc, bytes, places, fault)?,
        entry: called_of(alloc, bytes, entry_of(fault))?,
        key: key_of(places, fault),
        problem: String::from_str(alloc, problem_of(bytes, fault))?,
        mend: mend_of(alloc, bytes, places, fault)?,
    })
}

// ---- where

fn line_of_fault(
    alloc: Global,
    bytes: &[u8],
    places: &Places,
    fault: InvFault,
) -> Result<u64, AllocError>
    ensures { IfOk result (IsLineOf bytes.now places.now.marks.items places.now.heads.items fault) }
{
    match fault {
        InvFault::NotToml => syntax_line(alloc, bytes),
        InvFault::MissingKey(entry, key) => Ok(line_of(places, Some(entry), key)),
        InvFault::UnknownKey(entry) => Ok(unknown_line(places, entry)),
        InvFault::BadValue(entry, key) => Ok(line_of(places, entry, key)),
        InvFault::Tree(entry, fault) => {
            let key = tree_key(places, entry, fault);
            Ok(line_of(places, Some(entry), key))
        }
        InvFault::OutOfMemory => Ok(0),
    }
}

// The line at which the text stops being TOML; 0 where it is not UTF-8.
#[tactic(auto, using(crate::proofs::Said::no_line, crate::proofs::Said::some_line))]
fn syntax_line(alloc: Global, bytes: &[u8]) -> Result<u64, AllocError>
    ensures { IfOk result (IsSomeLine bytes.now) }
{
    let Ok(text) = std::str::from_utf8(bytes) else {
        return Ok(0);
    };
    match toml::table_from_str(alloc, text) {
        Ok(_) => Ok(0),
        Err(error) => match error.span() {
            None => Err(AllocError),
            Some(range) => Ok(line_at(bytes, range.start)),
        },
    }
}

// The number of the line that has the byte at an index.
fn line_at(bytes: &[u8], at: usize) -> u64
    requires { at ≤ length bytes.now }
    ensures { result ≡ line_at bytes.now at }
{
    line_feeds(&bytes[..at]) as u64 + 1
}

fn line_feeds(bytes: &[u8]) -> usize
    ensures counted { result ≡ length (filter is_line_feed bytes.now) }
    ensures within { result ≤ length bytes.now }
{
    bytes.iter().filter(|byte| **byte == b'\n').count()
}

// The index of the entry of a fault.
fn entry_of(fault: InvFault) -> Option<u32>
    ensures { result ≡ entry_of fault }
{
    match fault {
        InvFault::MissingKey(entry, _) | InvFault::Tree(entry, _) => Some(entry),
        InvFault::UnknownKey(entry) | InvFault::BadValue(entry, _) => entry,
        InvFault::NotToml | InvFault::OutOfMemory => None,
    }
}

fn called_of(alloc: Global, bytes: &[u8], entry: Option<u32>) -> Result<String, AllocError>
    ensures { IfOk result (λ text. string_bytes text ≡ called_of bytes.now entry) }
{
    match entry {
        None => Ok(String::new(alloc)),
        Some(entry) => called_if(alloc, bytes, entry),
    }
}

fn key_of(places: &Places, fault: InvFault) -> &'static str
    ensures { result.now ≡ fault_key places.now.marks.items places.now.heads.items fault }
{
    match fault {
        InvFault::MissingKey(_, key) | InvFault::BadValue(_, key) => key.text(),
        InvFault::Tree(entry, fault) => tree_key_text(places, entry, fault),
        InvFault::NotToml | InvFault::UnknownKey(_) | InvFault::OutOfMemory => "",
    }
}

fn tree_key_text(places: &Places, entry: u32, fault: TreeFault) -> &'static str
    ensures { result.now ≡ tree_key_text places.now.marks.items places.now.heads.items entry fault }
{
    match fault {
        TreeFault::Full => "",
        _ => tree_key(places, entry, fault).text(),
    }
}

// The key that a fault of the tree of entries is about.
#[tactic(auto, unfolding(crate::specs::FaultWords::tree_key))]
fn tree_key(places: &Places, entry: u32, fault: TreeFault) -> Key
    ensures { result ≡ tree_key places.now.marks.items places.now.heads.items entry fault }
{
    match fault {
        TreeFault::NoParent
        | TreeFault::ParentIsLease
        | TreeFault::LeaseWithoutToken
        | TreeFault::TooDeep => over_key(kind_of(places, entry)),
        TreeFault::StepTooSmall => {
            if has_key(places, entry, Key::Period, false) {
                Key::Period
            } else {
                Key::Increment
            }
        }
        TreeFault::OutOfRange => Key::MaxTtl,
        TreeFault::BadName | TreeFault::NameTwice | TreeFault::Full | TreeFault::OutOfMemory => {
            Key::Name
        }
    }
}

fn over_key(kind: Option<Kind>) -> Key
    ensures { result ≡ over_key kind }
{
    match kind {
        Some(Kind::Lease) => Key::Token,
        _ => Key::Parent,
    }
}

// ---- what is wrong

fn problem_of(bytes: &[u8], fault: InvFault) -> &'static str
    ensures { result.now ≡ fault_problem bytes.now fault }
{
    match fault {
        InvFault::NotToml => syntax_problem(is_utf8(bytes)),
        InvFault::MissingKey(_, _) => "is missing",
        InvFault::UnknownKey(entry) => unknown_problem(entry),
        InvFault::BadValue(entry, key) => value_problem(entry, key),
        InvFault::Tree(_, fault) => tree_problem(fault),
        InvFault::OutOfMemory => "memory",
    }
}

fn is_utf8(bytes: &[u8]) -> bool
    ensures { result ≡ is_utf8 bytes.now }
{
    std::str::from_utf8(bytes).is_ok()
}

fn syntax_problem(is_utf8: bool) -> &'static str
    ensures { result.now ≡ syntax_problem is_utf8 }
{
    if is_utf8 {
        "the file is not a TOML document"
    } else {
        "the file is not UTF-8"
    }
}

fn unknown_problem(entry: Option<u32>) -> &'static str
    ensures { result.now ≡ unknown_problem entry }
{
    match entry {
        None => "a key or a table is none of an inventory",
        Some(_) => "has a key that is none of this table",
    }
}

// What is wrong with the value at a key of an entry, or of the top level.
#[tactic(auto, unfolding(crate::specs::FaultWords::value_problem))]
fn value_problem(entry: Option<u32>, key: Key) -> &'static str
    ensures { result.now ≡ value_problem entry key }
{
    match (entry, key) {
        (None, Key::Token | Key::Lease) => "is not an array of tables",
        (Some(_), Key::Secret | Key::LeaseId) => "is none, or another entry of this kind has it",
        (Some(_), Key::SecretFile | Key::LeaseIdFile) => {
            "is no path, or stands beside the credential itself"
        }
        _ => "is of the wrong type or out of range",
    }
}

#[tactic(auto, unfolding(crate::specs::FaultWords::tree_problem))]
fn tree_problem(fault: TreeFault) -> &'static str
    ensures { result.now ≡ tree_problem fault }
{
    match fault {
        TreeFault::BadName => "is no name",
        TreeFault::NameTwice => "occurs twice",
        TreeFault::NoParent => "names no token above this table",
        TreeFault::ParentIsLease => "names a lease",
        TreeFault::LeaseWithoutToken => "is missing",
        TreeFault::StepTooSmall => "is not greater than the margin",
        TreeFault::OutOfRange => "leads past the last moment",
        TreeFault::TooDeep => "is the 65th of its chain",
        TreeFault::Full => "is one more than the 4096 entries allowed",
        TreeFault::OutOfMemory => "memory",
    }
}

// ---- what helps

fn mend_of(
    alloc: Global,
    bytes: &[u8],
    places: &Places,
    fault: InvFault,
) -> Result<String, AllocError>
    ensures { IfOk result (λ text. string_bytes text ≡ fault_mend bytes.now places.now.marks.items places.now.heads.items fault) }
{
    match fault {
        InvFault::NotToml => String::from_str(alloc, syntax_mend(is_utf8(bytes))),
        InvFault::MissingKey(entry, key) => missing_mend(alloc, entry, key),
        InvFault::UnknownKey(entry) => String::from_str(alloc, unknown_mend(places, entry)),
        InvFault::BadValue(entry, key) => value_mend(alloc, entry, key),
        InvFault::Tree(_, fault) => String::from_str(alloc, tree_mend(fault)),
        InvFault::OutOfMemory => String::from_str(alloc, "memory"),
    }
}

fn syntax_mend(is_utf8: bool) -> &'static str
    ensures { result.now ≡ syntax_mend is_utf8 }
{
    if is_utf8 {
        "correct the syntax there: texts and dates stand between straight quotes"
    } else {
        "save it as UTF-8"
    }
}

fn missing_mend(alloc: Global, entry: u32, key: Key) -> Result<String, AllocError>
    ensures { IfOk result (λ text. string_bytes text ≡ codes "add " ++ (key_text key ++ (codes ": " ++ expected_at (Some entry) key))) }
{
    let word = key.text();
    let expected = expected_at(Some(entry), key);
    format!(in alloc; "add {word}: {expected}")
}

fn unknown_mend(places: &Places, entry: Option<u32>) -> &'static str
    ensures { result.now ≡ unknown_mend places.now.marks.items places.now.heads.items entry }
{
    match entry {
        None => {
            "look for a misspelling; the keys are margin and system_max, the tables [[token]] and [[lease]]"
        }
        Some(entry) => keys_words(kind_of(places, entry)),
    }
}

#[tactic(auto, unfolding(crate::specs::FaultWords::keys_words))]
fn keys_words(kind: Option<Kind>) -> &'static str
    ensures { result.now ≡ keys_words kind }
{
    match kind {
        Some(Kind::Lease) => {
            "\
look for a misspelling; the keys are name, token, issued, end, renewable, increment, max_ttl, reissued, need, lease_id and \
lease_id_file"
        }
        _ => {
            "\
look for a misspelling; the keys are name, parent, issued, end, renewable, increment, period, max_ttl, explicit_max_ttl, reissued, need, \
secret and secret_file"
        }
    }
}

fn value_mend(alloc: Global, entry: Option<u32>, key: Key) -> Result<String, AllocError>
    ensures { IfOk result (λ text. string_bytes text ≡ codes "write " ++ expected_at entry key) }
{
    let expected = expected_at(entry, key);
    format!(in alloc; "write {expected}")
}

// What is to stand at a key of an entry, or of the top level.
#[tactic(auto, unfolding(crate::specs::FaultWords::expected_at))]
fn expected_at(entry: Option<u32>, key: Key) -> &'static str
    ensures { result.now ≡ expected_at entry key }
{
    match (entry, key) {
        (None, Key::Margin) => "1 to 3600 seconds, or a text such as \"90s\" or \"15m\"",
        (None, Key::Token) => "[[token]], with two brackets, over each token",
        (None, Key::Lease) => "[[lease]], with two brackets, over each lease",
        (None, _) => "whole seconds, 1 to 4294967295, or a text such as \"768h\"",
        (Some(_), Key::Name) => "1 to 64 letters, digits, -, _, . and /, in quotes",
        (Some(_), Key::Parent | Key::Token) => "the name of a token, in quotes",
        (Some(_), Key::Issued | Key::End) => {
            "whole seconds since 1970, or a date in quotes such as \"2027-01-31T08:00:00Z\""
        }
        (Some(_), Key::Need) => {
            "whole seconds since 1970, a date in quotes such as \"2027-01-31T08:00:00Z\", or \"always\""
        }
        (Some(_), Key::Renewable | Key::Reissued) => "true or false, without quotes",
        (Some(_), Key::Secret | Key::LeaseId) => {
            "1 to 256 printable ASCII characters without blanks, in quotes, and each entry once"
        }
        (Some(_), Key::SecretFile | Key::LeaseIdFile) => {
            "the path of a file, in quotes, or the credential itself, one of the two"
        }
        (Some(_), _) => {
            "whole seconds, up to 4294967295, or a text such as \"90m\", \"1h\" or \"30d\""
        }
    }
}

#[tactic(auto, unfolding(crate::specs::FaultWords::tree_mend))]
fn tree_mend(fault: TreeFault) -> &'static str
    ensures { result.now ≡ tree_mend fault }
{
    match fault {
        TreeFault::BadName => "write 1 to 64 letters, digits, -, _, . and /",
        TreeFault::NameTwice => "rename one of them",
        TreeFault::NoParent => {
            "write that token's table before this one, or look for a misspelling"
        }
        TreeFault::ParentIsLease => "name the lease's token",
        TreeFault::LeaseWithoutToken => "add the name of the lease's token",
        TreeFault::StepTooSmall => "ask for more, or lower the margin",
        TreeFault::OutOfRange => "write less",
        TreeFault::TooDeep => "flatten the tree",
        TreeFault::Full => "split the inventory",
        TreeFault::OutOfMemory => "memory",
    }
}
