ghost use Rattle.plan_check.specs.Laws.{AnswerLaw, ForcedTestLaw, KeptToLaw, WrittenIsJudgedLaw, YesLaw};

/// The law of keeping entry by entry: moments with their Asks keep an entry exactly where each entry over it, asked by
/// itself at every moment, lasts until its need. So no replay of the Asks is needed to judge them.
pub fn kept_law()
    ensures { KeptToLaw }
{}

/// The law that the test of a wake-up's force is Forced.
pub fn forced_test_law()
    ensures { ForcedTestLaw }
{}

/// The law of one answer: at most one answer to a certificate is right.
pub fn answer_law()
    ensures { AnswerLaw }
{}

/// The law of Yes: the moments of a certificate that gets Yes are least and latest, and with their Asks they keep; or, where
/// it names an unkeepable pair, no plan keeps.
pub fn yes_law()
    ensures { YesLaw }
{}

/// The law of what is read: a certificate that a text writes over a forest can be judged over it.
pub fn written_law()
    ensures { WrittenIsJudgedLaw }
{}
