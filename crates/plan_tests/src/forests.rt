use crate::rows::{LEASE, Row, WEB, entry_of};
use base_moment::LAST;
use plan_forest::{END_MAX, Forest, Kind, TreeFault};
use std::alloc::{AllocError, Global};
use std::test::Fail;

// What has too small a step, and is out of range besides.
const FAULTY: Row = Row {
    step: 1,
    end: END_MAX + 1,
    ..WEB
};

// The same under no entry, under the lease, and as a lease of nothing.
const ASTRAY: Row = Row {
    parent: Some(3),
    ..FAULTY
};

const UNDER_LEASE: Row = Row {
    parent: Some(1),
    ..FAULTY
};

const LEASE_OF_NONE: Row = Row {
    kind: Kind::Lease,
    ..FAULTY
};

const LATE_NEED: Row = Row {
    need: LAST + 1,
    ..WEB
};

// The last second of each range.
const AT_THE_EDGES: Row = Row {
    step: 2,
    end: END_MAX,
    ceiling: Some(END_MAX),
    need: LAST,
    ..LEASE
};

// A name, an entry, and its index or its refusal: each refusal beside all that come after it in the order.
type Pushed = (&'static str, Row, Result<u32, TreeFault>);

const PUSHED: [Pushed; 10] = [
    ("t", WEB, Ok(0)),
    ("l", LEASE, Ok(1)),
    ("", ASTRAY, Err(TreeFault::BadName)),
    ("t", ASTRAY, Err(TreeFault::NameTwice)),
    ("n", ASTRAY, Err(TreeFault::NoParent)),
    ("n", UNDER_LEASE, Err(TreeFault::ParentIsLease)),
    ("n", LEASE_OF_NONE, Err(TreeFault::LeaseWithoutToken)),
    ("n", FAULTY, Err(TreeFault::StepTooSmall)),
    ("n", LATE_NEED, Err(TreeFault::OutOfRange)),
    ("az-AZ_09./", AT_THE_EDGES, Ok(2)),
];

// Whether the entry is pushed or refused as it says, and the forest grows with it or stays.
fn pushes(alloc: Global, forest: &mut Forest, row: &Pushed) -> Result<bool, AllocError> {
    let entry = entry_of(alloc, row.0, &row.1)?;
    let before = forest.len();
    let answer = forest.push(entry);
    let added = if row.2.is_ok() { 1 } else { 0 };
    Ok(answer == row.2 && forest.len() == before + added)
}

#[test]
fn push_refuses_in_order(rt: HostRuntime) -> Result<(), Fail> {
    let mut forest = Forest::new(rt.alloc());
    for (i, row) in PUSHED.iter().enumerate() {
        assert!(rt; pushes(rt.alloc(), &mut forest, row)?, "row {i}");
    }
    Ok(())
}
