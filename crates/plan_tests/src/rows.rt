//! The rows of small inventories, and their forests; and tables of tests, which one loop walks, so that it is proved once.

ghost use Rattle.std.specs.Prelude.{◌≤◌};

use base_moment::{Moment, Name};
use plan_forest::{Entry, Forest, Kind};
use std::alloc::{AllocError, Global};
use std::process::Abort;
use std::test::Fail;

/// A row of an inventory.
#[derive(Clone, Copy)]
pub(crate) struct Row {
    pub(crate) kind: Kind,
    /// The index of the entry that it is a lease of, or a child.
    pub(crate) parent: Option<u32>,
    pub(crate) end: u64,
    pub(crate) renewable: bool,
    pub(crate) step: u32,
    pub(crate) ceiling: Option<u64>,
    pub(crate) need: u64,
}

/// The web example.
pub(crate) const WEB: Row = Row {
    kind: Kind::Token,
    parent: None,
    end: 1060,
    renewable: true,
    step: 60,
    ceiling: Some(10000),
    need: 1200,
};

/// The token of `LEASE`.
pub(crate) const TOKEN: Row = Row {
    end: 1100,
    step: 100,
    need: 0,
    ..WEB
};

/// A lease of the first entry.
pub(crate) const LEASE: Row = Row {
    kind: Kind::Lease,
    parent: Some(0),
    ..WEB
};

pub(crate) fn moment(seconds: u64) -> Result<Moment, Fail> {
    Ok(Moment::new(seconds).ok_or("a moment")?)
}

/// An entry of that name.
pub(crate) fn entry_of(alloc: Global, name: &str, row: &Row) -> Result<Entry, AllocError> {
    Ok(Entry {
        name: Name::of(alloc, name.as_bytes())?,
        kind: row.kind,
        parent: row.parent,
        end: row.end,
        renewable: row.renewable,
        step: row.step,
        ceiling: row.ceiling,
        need: row.need,
    })
}

/// The forest of these entries with that margin.
pub(crate) fn forest_of(alloc: Global, margin: u32, rows: &[Row]) -> Result<Forest, Fail>
    requires least { 1 ≤ margin }
    requires most { margin ≤ 3600 }
{
    let mut forest = Forest::with_margin(alloc, margin);
    for (i, row) in rows.iter().enumerate() {
        let name = format!(in alloc; "e{i}")?;
        let entry = entry_of(alloc, name.as_str(), row)?;
        forest.push(entry)?;
    }
    Ok(forest)
}

/// Asserts that each row of a table is so.
pub(crate) fn each<R: AllocGlobal + Abort, T, F: Fn(Global, &T) -> Result<bool, Fail>>(
    rt: &R,
    table: &[T],
    is_so: &F,
) -> Result<(), Fail>
    requires { F.IsAlwaysCallable is_so.now }
{
    for (i, row) in table.iter().enumerate() {
        assert!(rt; is_so(rt.alloc(), row)?, "row {i}");
    }
    Ok(())
}
