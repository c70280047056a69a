//! A moment as people are told it.
ghost use Rattle.std.specs.Prelude.{◌≡◌, IfOk};
ghost use Rattle.agent_pages.specs.Points.{SaysPoint, point_at, point_of};

use base_moment::{LAST, Moment, Text, date_text};
use std::alloc::{AllocError, Global};

/// A moment as people are told it.
#[derive(Clone, Copy, Debug)]
pub(crate) enum Point {
    /// There is none, or it is not known.
    Unknown,
    At(Moment),
    Always,
}

/// The point that stands for a moment, where there is one.
pub(crate) fn point_of(moment: Option<u64>) -> Point
    ensures { result ≡ point_of moment }
{
    match moment {
        None => Point::Unknown,
        Some(moment) => point_at(moment),
    }
}

/// The point that stands for so many seconds since 1970-01-01T00:00:00Z.
pub(crate) fn point_at(moment: u64) -> Point
    ensures { result ≡ point_at moment }
{
    if moment == 0 {
        Point::Unknown
    } else if moment < LAST {
        Point::At(Moment::new(moment).unwrap())
    } else {
        Point::Always
    }
}

/// A date in UTC, `always`, or `-`. The only error is out of memory.
pub(crate) fn point_text(alloc: Global, point: Point) -> Result<Text, AllocError>
    ensures { IfOk result (λ text. SaysPoint point text) }
{
    match point {
        Point::Unknown => Text::of(alloc, b"-"),
        Point::At(moment) => match date_text(alloc, moment) {
            Ok(text) => Ok(text),
            Err(_) => Err(AllocError),
        },
        Point::Always => Text::of(alloc, b"always"),
    }
}
