use crate::rows::each;
use base_moment::{Moment, TimeFault, date_text, read_rfc3339};
use std::alloc::Global;
use std::test::Fail;

// A text, and its moment or why it has none: the numbers were worked out by Python's `datetime`.
type Read = (&'static str, Result<u64, TimeFault>);

const READ: [Read; 18] = [
    ("2017-04-30T10:18:11.228946471-04:00", Ok(1493561891)),
    ("2018-04-17T11:35:54-04:00", Ok(1523979354)),
    ("1996-12-19T16:39:57-08:00", Ok(851042397)),
    // the first moment and the last one, in small letters too
    ("1970-01-01t00:00:00z", Ok(0)),
    (
        "9999-12-31T23:59:59.999999999999999999999Z",
        Ok(253402300799),
    ),
    ("2000-02-29T00:00:00Z", Ok(951782400)),
    ("2100-03-01T00:00:00Z", Ok(4107542400)),
    ("2024-12-31T23:30:00-01:00", Ok(1735691400)),
    ("2024-02-29T23:59:59-23:59", Ok(1709337539)),
    // moments outside
    ("1969-12-31T23:59:59.5Z", Err(TimeFault::OutOfRange)),
    // days, times and offsets that there are not, a leap second among them
    ("2023-02-29T00:00:00Z", Err(TimeFault::BadTime)),
    ("2024-04-31T00:00:00Z", Err(TimeFault::BadTime)),
    ("2024-01-01T24:00:00Z", Err(TimeFault::BadTime)),
    ("1990-12-31T15:59:60-08:00", Err(TimeFault::BadTime)),
    ("2024-01-01T00:00:00+24:00", Err(TimeFault::BadTime)),
    // other spellings
    ("2024-01-01T00:00:00", Err(TimeFault::BadTime)),
    ("2024-01-01T00:00:00+0100", Err(TimeFault::BadTime)),
    ("2024-01-01 00:00:00Z", Err(TimeFault::BadTime)),
];

fn is_read(_alloc: Global, row: &Read) -> Result<bool, Fail> {
    match read_rfc3339(row.0) {
        Ok(moment) => Ok(row.1 == Ok(moment.get())),
        Err(fault) => Ok(row.1 == Err(fault)),
    }
}

#[test]
fn dates_are_read(rt: HostRuntime) -> Result<(), Fail> {
    each(&rt, &READ, &is_read)
}

// A moment and its text.
type Written = (u64, &'static str);

const WRITTEN: [Written; 3] = [
    (1000, "1970-01-01T00:16:40Z"),
    (951782400, "2000-02-29T00:00:00Z"),
    (253402300799, "9999-12-31T23:59:59Z"),
];

fn is_written(alloc: Global, row: &Written) -> Result<bool, Fail> {
    let moment = Moment::new(row.0).ok_or("a moment")?;
    Ok(date_text(alloc, moment)?.list() == row.1.as_bytes())
}

#[test]
fn dates_are_written(rt: HostRuntime) -> Result<(), Fail> {
    each(&rt, &WRITTEN, &is_written)
}
