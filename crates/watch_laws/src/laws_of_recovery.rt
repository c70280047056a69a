ghost use Rattle.watch_laws.specs.Recovery.{RecoveryLaw};

/// The law of recovery: while the broker is there, an entry that may go out and does not waits no longer than so many rounds of the
/// lanes as hold those that wait at first and come to wait meanwhile. What is watched may change meanwhile, as long as the entry stays:
/// a change counts as the lookups that it brings.
pub fn recovery_law()
    ensures { RecoveryLaw }
{}
