//! When a round opens and whom it asks, in calm or not.
ghost use Rattle.watch_laws.specs.Rounds.{AsksLaw, HopeLaw, RoundLaw};

/// The law of rounds: a round opens just at a clock at which an entry that is wanted, in the plan and not at its end has come to its time,
/// and was neither pressed nor out before.
pub fn round_law()
    ensures { RoundLaw }
{}

/// The law of Asks: at every clock at which a round opens, in calm or not, it names just the Asks of now, of the forest as it is believed,
/// where a renewal leads no entry further than its last grant. A wanted entry that a round can't ask, since it is outside the plan, of
/// unknown end, or being asked already, is taken as just renewed by that; any other ends as it is believed to.
pub fn asks_law()
    ensures { AsksLaw }
{}

/// The law of hope: what is believed of an entry that is taken as just renewed, and why it is, changes no round. Two clocks at which
/// all else is the same ask the same entries.
pub fn hope_law()
    ensures { HopeLaw }
{}
