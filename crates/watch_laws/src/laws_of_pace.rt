ghost use Rattle.watch_laws.specs.Pace.{KeptLaw, PaceLaw};

/// The law of the pace, by which the watch tells how long a request may take while a part of the broker is silent: with each answer it is
/// the time which that took, or an eighth less than before if that is more. Each reply is kept for this, until the next clock, with the
/// clock at which its request went out.
pub fn pace_law()
    ensures pace { PaceLaw }
    ensures kept { KeptLaw }
{}
