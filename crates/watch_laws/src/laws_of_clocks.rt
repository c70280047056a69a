ghost use Rattle.watch_laws.specs.Clocks.{DateLaw, ReadingLaw, StaysLaw, UndatedLaw};
ghost use Rattle.watch_laws.specs.Dates.{WindowLaw};

/// The law of clocks. After each clock the wall's clock, as it is set, shows the reading that was handed in but for two seconds. After a
/// date the broker's, as it is set, shows that date less two seconds or more, and as the request for it went out it showed the date and
/// three seconds more at most. Without a date it stays as it is, and until the first one it is the wall's.
pub fn clocks_law()
    ensures readings { ReadingLaw }
    ensures dates { DateLaw }
    ensures undated { UndatedLaw }
    ensures stays { StaysLaw }
{}

/// The law of dates: at the clock after one reply with a date, that sets the broker's clock to itself if it is more than two seconds
/// ahead of what that shows, or more than three behind what it showed as the request went out; else it leaves it. That a date was ahead
/// is remembered until the next beginning.
pub fn date_law()
    ensures { WindowLaw }
{}
