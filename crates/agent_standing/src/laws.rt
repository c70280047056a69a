ghost use Rattle.agent_standing.specs.Ends.{BootLaw, EndLineLaw, EndReadIsWritten, EndWrittenIsRead};
ghost use Rattle.agent_standing.specs.Laws.{FreshLaw, RememberedLaw};

/// The law that nothing is forgotten over a change. What was said of an entry that was served before with the same credential is said of
/// it, and the Watch believes the end and the word on renewal that it believed; where the inventory says of it what it said, all that is
/// known of it stays. Of any other entry nothing is said or believed, and a lookup is owed.
pub fn nothing_is_forgotten()
    ensures remembered { RememberedLaw }
    ensures fresh { FreshLaw }
{}

/// The laws of ends that are kept over a restart: the text of an end is read as that end, no other text is read as it, it is one line,
/// and it is worth nothing in another boot.
pub fn ends_are_read_back()
    ensures found { EndWrittenIsRead }
    ensures only { EndReadIsWritten }
    ensures line { EndLineLaw }
    ensures boot { BootLaw }
{}
