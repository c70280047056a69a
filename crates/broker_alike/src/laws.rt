//! The law of brokers that differ in credentials alone.
ghost use Rattle.broker_alike.specs.Laws.{AlikeLookupLaw, DatedLaw, RenewalLaw};

/// The law that secrets change no step of a broker: brokers whose tables differ in credentials alone say the same to the renewal
/// of an entry, and to its lookup, each asked with its own credentials, and are alike after it; and a step leaves each row issued
/// when it was.
pub fn secrets_change_no_step()
    ensures renewals { RenewalLaw }
    ensures lookups { AlikeLookupLaw }
    ensures dated { DatedLaw }
{}
