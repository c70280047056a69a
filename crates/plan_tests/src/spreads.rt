use crate::rows::{Row, WEB, each, forest_of};
use plan_spread::{margin_with, part_of};
use std::alloc::Global;
use std::test::Fail;

// A name, a spread and the part of the name in it, computed apart by Python:
// `int.from_bytes(hashlib.sha256(name).digest()[:8], "big") * (spread + 1) >> 64`.
type Part = (&'static [u8], u32, u32);

const PARTS: [Part; 6] = [
    (b"", 60, 54),
    (b"shop", 60, 33),
    (b"web-1", 3600, 2763),
    (b"a", 0, 0),
    (b"a", 1, 1),
    (b"shop", u32::MAX, 2375025107),
];

fn is_part(_alloc: Global, row: &Part) -> Result<bool, Fail> {
    Ok(part_of(row.0, row.1) == row.2)
}

#[test]
fn a_name_always_has_the_same_part(rt: HostRuntime) -> Result<(), Fail> {
    each(&rt, &PARTS, &is_part)
}

// A margin, the step of the one entry, the seconds to wake up earlier, and the margin with them: it at most doubles, is at most
// three quarters of the step and an hour, and never gets narrower.
type Wider = (u32, u32, u32, u32);

const WIDER: [Wider; 7] = [
    (10, 60, 0, 10),
    (10, 60, 7, 17),
    (10, 60, 11, 20),
    (30, 60, 16, 45),
    (50, 60, 20, 50),
    (1, 60, u32::MAX, 2),
    (2000, 100000, 3000, 3600),
];

fn is_wider(alloc: Global, row: &Wider) -> Result<bool, Fail> {
    if row.0 < 1 || 3600 < row.0 {
        return Ok(false);
    }
    let forest = forest_of(alloc, row.0, &[Row { step: row.1, ..WEB }])?;
    Ok(margin_with(&forest, row.2) == row.3)
}

#[test]
fn a_margin_is_wider_as_far_as_there_is_room(rt: HostRuntime) -> Result<(), Fail> {
    each(&rt, &WIDER, &is_wider)
}
