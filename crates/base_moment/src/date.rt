ghost use Rattle.std.specs.Prelude.{◌≡◌, ◌≤◌, ◌↔◌, List, ℕ, pos, Ok, Err, IfOk, IfErr};
ghost use Rattle.base_moment.specs.Rfc3339.{IsDateTime, WritesDate, IsDateText, seconds_of};
ghost use Rattle.base_moment.specs.MomentOf.{moment_of, in_range};
ghost use Rattle.base_moment.specs.declared.stamp.Stamp.{Stamp};

use crate::fault::TimeFault;
use crate::moment::{LAST, Moment};
use crate::stamp::Stamp;
use crate::text::Text;
use std::alloc::Global;

/// The moment that a date and time by RFC 3339, section 5.6, means.
///
/// The text is `YYYY-MM-DD`, `T` or `t`, `HH:MM:SS`, then a fraction of a second if there is one (`.` and one digit or
/// more), then `Z`, `z`, `+HH:MM` or `-HH:MM` with hours 00 to 23 and minutes 00 to 59. The calendar must have the date
/// and a clock the time, which has no second 60. The fraction is cut off, downwards: a text of the last second before
/// 1970 is out of range. The day number is that of `jiff`.
///
/// # Errors
///
/// - `BadTime` where the text writes no such date and time.
/// - `OutOfRange` where its moment lies before 1970-01-01T00:00:00Z or after [`LAST`](crate::LAST).
///
/// No memory is taken, and so `OutOfMemory` is never the answer.
pub fn read_rfc3339(text: &str) -> Result<Moment, TimeFault>
    ensures moment { IfOk result (λ m. (s : Stamp) × IsDateTime s × WritesDate text.now s × (seconds_of s ≡ pos m)) }
    ensures only { (s : Stamp) → IsDateTime s → WritesDate text.now s → result ≡ in_range (seconds_of s) }
    ensures bad { (result ≡ Err TimeFault.BadTime) ↔ ((s : Stamp) → IsDateTime s → WritesDate text.now s → ⊥) }
    ensures never_memory { ¬ (result ≡ Err TimeFault.OutOfMemory) }
    ensures exact { result ≡ moment_of text.now }
{
    read_exactly(text)
}

/// The text of a moment by RFC 3339: `YYYY-MM-DDTHH:MM:SSZ`, with `T`, `Z` and no fraction.
///
/// The only error is out of memory.
pub fn date_text(alloc: Global, moment: Moment) -> Result<Text, TimeFault>
    ensures text { IfOk result (λ t. IsDateText t moment) }
    ensures memory { IfErr result (λ fault. fault ≡ TimeFault.OutOfMemory) }
{
    let stamp = Stamp::of(moment);
    Ok(Text::of(alloc, &stamp.utc_text())?)
}

/// The law that joins the two calls: the text of a moment is read as that moment, and each moment has one text.
pub fn dates_are_read_back()
    ensures read_back { (text : List ℕ) (moment : ℕ) → moment ≤ LAST → IsDateText text moment → moment_of text ≡ Ok moment }
    ensures one_text { (text other : List ℕ) (moment : ℕ) → IsDateText text moment → IsDateText other moment → text ≡ other }
{}

// The moment that many seconds after 1970-01-01T00:00:00Z.
fn moment_in_range(seconds: i64) -> Result<Moment, TimeFault>
    ensures { result ≡ in_range seconds }
{
    if seconds < 0 {
        return Err(TimeFault::OutOfRange);
    }
    Moment::new(seconds as u64).ok_or(TimeFault::OutOfRange)
}

// The moment of a text, by the function that the laws are about.
#[tactic(auto, unfolding(crate::specs::MomentOf::moment_of))]
fn read_exactly(text: &str) -> Result<Moment, TimeFault>
    ensures { result ≡ moment_of text.now }
{
    let stamp = Stamp::read(text.as_bytes()).ok_or(TimeFault::BadTime)?;
    let seconds = stamp.seconds().ok_or(TimeFault::BadTime)?;
    moment_in_range(seconds)
}
