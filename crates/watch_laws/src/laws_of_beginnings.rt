ghost use Rattle.watch_laws.specs.Beginnings.{FewLaw, OneLookupLaw};
ghost use Rattle.watch_laws.specs.Begins.{BeginLaw};

/// The law of beginnings: between two of them lies a jump of the wall, a `Begin`, or ten minutes. So the dates of many nodes that
/// differ cost one lookup of each entry in ten minutes.
pub fn few_law()
    ensures { FewLaw }
{}

/// The law of lookups: from a beginning on, while all goes well with it, an entry that is needed, as each is that is wanted, is looked
/// up once; a lookup that was out as the beginning came counts. Of an entry that is not needed and owed no lookup before, none goes out.
pub fn lookup_law()
    ensures { OneLookupLaw }
{}

/// The law of when everything is looked up anew: at the first clock, where the wall has jumped, where it is asked for, where a date has
/// shown the broker's clock set on and ten minutes have passed since the last time, and where a day has passed and nobody is pressed
/// whose end is ahead. From then on nobody is called topped.
pub fn begin_law()
    ensures { BeginLaw }
{}
