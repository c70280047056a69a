use crate::rows::{LEASE, Row, WEB, each, forest_of, moment};
use plan_needs::carry;
use std::alloc::Global;
use std::test::Fail;

// A token that is not needed itself, and such a child of the first entry.
const IDLE: Row = Row { need: 0, ..WEB };

const IDLE_CHILD: Row = Row {
    parent: Some(0),
    ..IDLE
};

const CHILD: Row = Row {
    parent: Some(0),
    ..WEB
};

// Leases of the third entry and of the second.
const LEASE_OF_2: Row = Row {
    parent: Some(2),
    ..LEASE
};

const LEASE_OF_1: Row = Row {
    parent: Some(1),
    ..LEASE
};

// Entries, and what each of them carries from the start 1000 on, with the entry whose need it is.
type Carried = (&'static [Row], &'static [(u64, Option<u32>)]);

// A token with its lease; equal needs of a token and its child, and of two branches, where the lower lease is below the later
// child; a need at the start.
const CARRIED: [Carried; 4] = [
    (&[IDLE, LEASE], &[(1200, Some(1)), (1200, Some(1))]),
    (&[WEB, CHILD], &[(1200, Some(0)), (1200, Some(1))]),
    (
        &[IDLE, IDLE_CHILD, IDLE_CHILD, LEASE_OF_2, LEASE_OF_1],
        &[
            (1200, Some(3)),
            (1200, Some(4)),
            (1200, Some(3)),
            (1200, Some(3)),
            (1200, Some(4)),
        ],
    ),
    (&[Row { need: 1000, ..WEB }], &[(0, None)]),
];

fn carries(alloc: Global, row: &Carried) -> Result<bool, Fail> {
    let start = moment(1000)?;
    let forest = forest_of(alloc, 1, row.0)?;
    let carried = carry(alloc, &forest, start)?;
    let mut is_so = forest.len() as usize == row.1.len();
    for index in 0..forest.len() {
        let found = (carried.need(index), carried.from(index));
        is_so = row.1.get(index as usize) == Some(&found) && is_so;
    }
    Ok(is_so)
}

#[test]
fn carries_the_greatest_need_and_names_the_lowest(rt: HostRuntime) -> Result<(), Fail> {
    each(&rt, &CARRIED, &carries)
}
