ghost use Rattle.std.specs.Prelude.{◌≡◌, true};
ghost use Rattle.vault_inventory.specs.declared.need.Need.TheVariants.{Always, Until};

use base_moment::{Span, Text};
use plan_forest::Kind;
use state_changes::Row;
use vault_inventory::{Need, Terms};

/// Whether two lists have the same rows in the same order.
#[tactic(auto, using(crate::proofs::Fields::all_same))]
pub(crate) fn are_same(rows: &[Row], others: &[Row]) -> bool
    ensures same { result ≡ true → rows.now ≡ others.now }
    ensures only { rows.now ≡ others.now → result ≡ true }
{
    if rows.len() != others.len() {
        return false;
    }
    for index in 0..rows.len() {
        if !is_same(&rows[index], &others[index]) {
            return false;
        }
    }
    true
}

// Whether two rows are the same.
#[tactic(auto, using(crate::proofs::Fields::same_row))]
fn is_same(row: &Row, other: &Row) -> bool
    ensures same { result ≡ true → row.now ≡ other.now }
    ensures only { row.now ≡ other.now → result ≡ true }
{
    has_same_name(row, other)
        && has_same_life(row, other)
        && is_same_terms(&row.terms, &other.terms)
        && is_same_need(&row.need, &other.need)
        && has_same_credential(row, other)
}

#[tactic(auto, using(crate::proofs::Fields::same_bytes, crate::proofs::Fields::bytes_same))]
fn has_same_name(row: &Row, other: &Row) -> bool
    ensures name { result ≡ true → row.now.name ≡ other.now.name }
    ensures kind { result ≡ true → row.now.kind ≡ other.now.kind }
    ensures parent { result ≡ true → row.now.parent ≡ other.now.parent }
    ensures only { row.now ≡ other.now → result ≡ true }
{
    row.name.list() == other.name.list()
        && is_same_kind(row.kind, other.kind)
        && is_same_text(&row.parent, &other.parent)
}

fn has_same_life(row: &Row, other: &Row) -> bool
    ensures told { result ≡ true → row.now.is_told ≡ other.now.is_told }
    ensures end { result ≡ true → row.now.end ≡ other.now.end }
    ensures renewable { result ≡ true → row.now.renewable ≡ other.now.renewable }
    ensures only { row.now ≡ other.now → result ≡ true }
{
    row.is_told == other.is_told && row.end == other.end && row.renewable == other.renewable
}

#[tactic(auto, using(crate::proofs::Fields::same_bytes, crate::proofs::Fields::bytes_same))]
fn has_same_credential(row: &Row, other: &Row) -> bool
    ensures credential { result ≡ true → row.now.credential ≡ other.now.credential }
    ensures file { result ≡ true → row.now.file ≡ other.now.file }
    ensures only { row.now ≡ other.now → result ≡ true }
{
    row.credential.list() == other.credential.list() && is_same_text(&row.file, &other.file)
}

#[tactic(auto, using(crate::proofs::Fields::same_terms))]
fn is_same_terms(terms: &Terms, other: &Terms) -> bool
    ensures same { result ≡ true → terms.now ≡ other.now }
    ensures only { terms.now ≡ other.now → result ≡ true }
{
    terms.issued.get() == other.issued.get()
        && is_same_span(terms.increment, other.increment)
        && terms.period == other.period
        && terms.max_ttl == other.max_ttl
        && terms.explicit_max == other.explicit_max
        && terms.reissued == other.reissued
}

/// Whether two durations that may be absent are the same.
pub(crate) fn is_same_span(span: Option<Span>, other: Option<Span>) -> bool
    ensures same { result ≡ true → span ≡ other }
    ensures only { span ≡ other → result ≡ true }
{
    match (span, other) {
        (None, None) => true,
        (Some(span), Some(other)) => span == other,
        _ => false,
    }
}

fn is_same_kind(kind: Kind, other: Kind) -> bool
    ensures same { result ≡ true → kind ≡ other }
    ensures only { kind ≡ other → result ≡ true }
{
    match kind {
        Kind::Token => !other.is_lease(),
        Kind::Lease => other.is_lease(),
    }
}

fn is_same_need(need: &Need, other: &Need) -> bool
    ensures same { result ≡ true → need.now ≡ other.now }
    ensures only { need.now ≡ other.now → result ≡ true }
{
    match need {
        Need::Until(moment) => is_until(moment.get(), other),
        Need::Always => is_always(other),
    }
}

fn is_until(seconds: u64, need: &Need) -> bool
    ensures same { result ≡ true → need.now ≡ Until seconds }
    ensures only { need.now ≡ Until seconds → result ≡ true }
{
    match need {
        Need::Until(moment) => moment.get() == seconds,
        Need::Always => false,
    }
}

fn is_always(need: &Need) -> bool
    ensures same { result ≡ true → need.now ≡ Always }
    ensures only { need.now ≡ Always → result ≡ true }
{
    match need {
        Need::Until(_) => false,
        Need::Always => true,
    }
}

#[tactic(auto, using(crate::proofs::Fields::same_bytes, crate::proofs::Fields::bytes_same))]
fn is_same_text(text: &Option<Text>, other: &Option<Text>) -> bool
    ensures same { result ≡ true → text.now ≡ other.now }
    ensures only { text.now ≡ other.now → result ≡ true }
{
    match (text, other) {
        (None, None) => true,
        (Some(text), Some(other)) => text.list() == other.list(),
        _ => false,
    }
}
