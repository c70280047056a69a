//! Laws of lookups.
ghost use Rattle.vault_proving.specs.Laws.{LostLaw, OtherStatusLaw, ToldVerdictLaw, VerdictTimeLaw};

/// The law that a verdict is the broker's: a reply with another status than 200 refuses a credential exactly where that is 400, 403,
/// 404 or 405, and else says nothing of it; one with 200 refuses nothing but a token that never ends; and where no reply came, nothing
/// speaks against the credential, and the verdict says why none came.
pub fn a_verdict_is_the_brokers()
    ensures other { OtherStatusLaw }
    ensures told { ToldVerdictLaw }
    ensures lost { LostLaw }
{}

/// The law that a lookup ends in time: over lanes in memory there is a verdict once their time-out has passed since it went out.
pub fn a_lookup_ends_in_time()
    ensures { VerdictTimeLaw }
{}
