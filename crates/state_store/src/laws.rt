ghost use Rattle.state_store.specs.Laws.{AsGivenLaw, MovedLaw, RestartLaw};

/// The law that a change is taken as it was given, where a journal can write it.
pub fn changes_are_taken_as_given()
    ensures { AsGivenLaw }
{}

/// The law that a start on the same file and over the same journal gives the same rows: so what was acknowledged holds, since a crash
/// leaves a journal with the same lines ([`Store::take`](crate::Store::take)).
pub fn a_restart_changes_nothing()
    ensures { RestartLaw }
{}

/// The law that each file and journal that a crash leaves while a file becomes what is kept ([`Store::settle`](crate::Store::settle))
/// give the same rows, once they are in the order of a file.
pub fn a_crash_while_settling_changes_nothing()
    ensures { MovedLaw }
{}
