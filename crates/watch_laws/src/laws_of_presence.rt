ghost use Rattle.watch_laws.specs.Backs.{BackLaw};
ghost use Rattle.watch_laws.specs.Presence.{AwayLaw};

/// The law of presence: the broker counts as away from the loss of a request on, if it answered none since that went out, and until it
/// answers. Nothing else changes it, no change of what is watched either: requests whose entries are no more count as all others.
pub fn away_law()
    ensures { AwayLaw }
{}

/// The law of the broker's return: the first answer after an absence makes every try that was lost due at once, or a second after its
/// entry was last asked, and no failure of a request counts that is still out. Any other reply leaves the entries that it is not for.
pub fn back_law()
    ensures { BackLaw }
{}
