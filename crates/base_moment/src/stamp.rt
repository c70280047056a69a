ghost use Rattle.std.specs.Prelude.{◌≡◌, ◌+◌, ◌*◌, ◌/◌, ◌%◌, ◌<◌, ◌≤◌, ◌++◌, ◌∷◌, [], pos, ◌≤ℤ◌, ◌+ℤ◌, ◌-ℤ◌, ◌*ℤ◌, IfSome, Some, None, if◌then◌else◌};
ghost use Rattle.jiff_core.specs.Calendar.{days_from_civil, IsEpochDay};
ghost use Rattle.jiff_core.specs.Date.{epoch_day};
ghost use Rattle.base_moment.specs.Rfc3339.{IsDateTime, face, seconds_of, clock_of, offset_of};
ghost use Rattle.base_moment.specs.MomentOf.{is_date, is_date_time, is_time, is_offset, zone_of, stamp_of};

use crate::moment::Moment;
use crate::places::{behind, behind_fraction, byte_at, four_digits, mark, two_digits};
use jiff::civil::Date;

/// The zone that a date and time ends in: UTC, or hours and minutes ahead of it or behind it.
#[derive(Clone, Copy, Debug)]
pub enum Zone {
    Utc,
    Ahead(u8, u8),
    Behind(u8, u8),
}

/// The numbers of a date and time as a text of RFC 3339 gives them, a fraction of a second left out.
///
/// A stamp by itself need not be on the calendar or on the clock.
#[derive(Clone, Copy, Debug)]
pub struct Stamp {
    pub year: u16,
    pub month: u8,
    pub day: u8,
    pub hour: u8,
    pub minute: u8,
    pub second: u8,
    pub zone: Zone,
}

impl Zone {
    // Whether the hours are below 24 and the minutes below 60.
    fn is_valid(self) -> bool
        ensures { result ≡ is_offset self }
    {
        match self {
            Zone::Utc => true,
            Zone::Ahead(hours, minutes) => hours < 24 && minutes < 60,
            Zone::Behind(hours, minutes) => hours < 24 && minutes < 60,
        }
    }

    // The seconds by which clocks of the zone are ahead of UTC.
    fn offset(self) -> i32
        ensures value { result ≡ offset_of self }
        ensures low { pos 0 ≤ℤ (result +ℤ pos 1_000_000) }
        ensures high { result ≤ℤ pos 1_000_000 }
    {
        match self {
            Zone::Utc => 0,
            Zone::Ahead(hours, minutes) => offset_seconds(hours, minutes),
            Zone::Behind(hours, minutes) => -offset_seconds(hours, minutes),
        }
    }

    // The zone that these bytes write, up to their end.
    #[tactic(auto, unfolding(crate::specs::MomentOf::zone_of))]
    fn read(text: &[u8]) -> Option<Zone>
        ensures { result ≡ zone_of text.now }
    {
        if text.len() == 1 {
            mark(text, 0, b'Z', b'z')?;
            return Some(Zone::Utc);
        }
        if text.len() != 6 {
            return None;
        }
        let hours = two_digits(text, 1)?;
        mark(text, 3, b':', b':')?;
        let minutes = two_digits(text, 4)?;
        match byte_at(text, 0) {
            b'+' => Some(Zone::Ahead(hours, minutes)),
            b'-' => Some(Zone::Behind(hours, minutes)),
            _ => None,
        }
    }
}

impl Stamp {
    /// The stamp that these bytes write, or `None` where they do not follow the pattern of RFC 3339, section 5.6.
    #[tactic(auto, unfolding(crate::specs::MomentOf::stamp_of))]
    pub fn read(text: &[u8]) -> Option<Stamp>
        ensures { result ≡ stamp_of text.now }
    {
        let year = four_digits(text, 0)?;
        mark(text, 4, b'-', b'-')?;
        let month = two_digits(text, 5)?;
        mark(text, 7, b'-', b'-')?;
        let day = two_digits(text, 8)?;
        mark(text, 10, b'T', b't')?;
        let hour = two_digits(text, 11)?;
        mark(text, 13, b':', b':')?;
        let minute = two_digits(text, 14)?;
        mark(text, 16, b':', b':')?;
        let second = two_digits(text, 17)?;
        let zone = Zone::read(behind_fraction(behind(text, 19)))?;
        Some(Stamp {
            year,
            month,
            day,
            hour,
            minute,
            second,
            zone,
        })
    }

    /// The stamp of UTC at this moment.
    pub fn of(moment: Moment) -> Stamp
        ensures real { IsDateTime result }
        ensures zone { result.zone ≡ Zone.Utc }
        ensures moment { seconds_of result ≡ pos moment }
    {
        let (days, clock) = (moment.get() / 86400, (moment.get() % 86400) as u32);
        let date = calendar_day(days as u32);
        Stamp {
            year: date.year as u16,
            month: date.month,
            day: date.day,
            hour: (clock / 3600) as u8,
            minute: (clock / 60 % 60) as u8,
            second: (clock % 60) as u8,
            zone: Zone::Utc,
        }
    }

    /// The bytes `YYYY-MM-DDTHH:MM:SSZ` of a stamp of UTC.
    pub fn utc_text(&self) -> [u8; 20]
        requires { IsDateTime self.now }
        ensures { result ≡ face self.now 84 ++ 90 ∷ [] }
    {
        let (century, rest) = ((self.year / 100) as u8, (self.year % 100) as u8);
        [
            tens(century),
            ones(century),
            tens(rest),
            ones(rest),
            b'-',
            tens(self.month),
            ones(self.month),
            b'-',
            tens(self.day),
            ones(self.day),
            b'T',
            tens(self.hour),
            ones(self.hour),
            b':',
            tens(self.minute),
            ones(self.minute),
            b':',
            tens(self.second),
            ones(self.second),
            b'Z',
        ]
    }

    /// Whole seconds since 1970-01-01T00:00:00Z, or `None` where the calendar or the clock has no such stamp.
    #[tactic(auto, unfolding(crate::specs::MomentOf::is_date_time))]
    pub fn seconds(self) -> Option<i64>
        ensures { result ≡ (if is_date_time self then Some (seconds_of self) else None) }
    {
        let day = day_number(self.year, self.month, self.day)?;
        if !self.is_time() {
            return None;
        }
        Some(seconds_at(day, self.clock(), self.zone.offset()))
    }

    // Whether a clock shows the time, and the offset is one.
    fn is_time(self) -> bool
        ensures { result ≡ is_time self }
    {
        self.hour < 24 && self.minute < 60 && self.second < 60 && self.zone.is_valid()
    }

    // The seconds of the day that the stamp's own clock shows.
    fn clock(self) -> u32
        ensures value { result ≡ clock_of self }
        ensures within { result ≤ 1_000_000 }
    {
        3600 * self.hour as u32 + 60 * self.minute as u32 + self.second as u32
    }
}

// The seconds of an offset.
fn offset_seconds(hours: u8, minutes: u8) -> i32
    ensures value { result ≡ pos (3600 * hours + 60 * minutes) }
    ensures high { result ≤ℤ pos 1_000_000 }
{
    3600 * hours as i32 + 60 * minutes as i32
}

// The seconds from 1970-01-01T00:00:00Z to the time of the clock on that day.
fn seconds_at(day: i32, clock: u32, offset: i32) -> i64
    requires day_in { IsEpochDay day }
    requires clock_in { clock ≤ 1_000_000 }
    requires offset_low { pos 0 ≤ℤ (offset +ℤ pos 1_000_000) }
    requires offset_high { offset ≤ℤ pos 1_000_000 }
    ensures { result ≡ (day *ℤ pos 86400 +ℤ pos clock) -ℤ offset }
{
    day as i64 * 86400 + clock as i64 - offset as i64
}

// The day number of a date, counted from 1970-01-01, if the calendar has it.
fn day_number(year: u16, month: u8, day: u8) -> Option<i32>
    ensures value { result ≡ (if is_date year month day then Some (days_from_civil (pos year) month day) else None) }
    ensures within { IfSome result (λ n. IsEpochDay n) }
{
    if year > 9999 || month > 12 || day > 31 {
        return None;
    }
    let date = Date::new(year as i16, month as i8, day as i8).ok()?;
    Some(date.to_plain().to_unix_epoch_day())
}

// The date of a day number, from 1970-01-01 to 9999-12-31.
fn calendar_day(day: u32) -> jiff_core::civil::Date
    requires { day ≤ 2_932_896 }
    ensures value { epoch_day result ≡ pos day }
    ensures year { pos 0 ≤ℤ result.year }
{
    jiff_core::civil::Date::from_unix_epoch_day(day as i64).unwrap()
}

// The digit of the tens of a number below 100.
fn tens(n: u8) -> u8
    requires { n < 100 }
    ensures { result ≡ 48 + n / 10 }
{
    b'0' + n / 10
}

// The digit of its ones.
fn ones(n: u8) -> u8
    ensures { result ≡ 48 + n % 10 }
{
    b'0' + n % 10
}
