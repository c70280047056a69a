//! Laws of what is asked and answered.
ghost use Rattle.vault_asking.specs.Laws.{AnswersLaw, ChangeLaw, ClockLaw, NewLaw, OtherLaw};

/// The law that the requests on lanes are those that the machine has out: so it is of a new machine over lanes of which none is
/// taken; a clock's requests find lanes that are free, and after they went out it is so again; what is handed back are answers to
/// requests that are out, and after they were handed in it is so again; and so it is after any other event, and, once the lanes are renamed
/// as the machine has it, where another forest is watched.
pub fn lanes_stay_in_step()
    ensures new { NewLaw }
    ensures clock { ClockLaw }
    ensures answers { AnswersLaw }
    ensures other { OtherLaw }
    ensures change { ChangeLaw }
{}
