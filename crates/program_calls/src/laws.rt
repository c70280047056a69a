ghost use Rattle.std.specs.Prelude.{◌≡◌};
ghost use Rattle.program_calls.specs.Laws.{SentIsAsked, UnsentIsRefused};
ghost use Rattle.program_calls.specs.declared.limits.TheConstants.{ANSWER_MAX, INPUT_MAX, PATIENCE};

/// The limits as numbers.
pub fn limits_of_calls()
    ensures input { INPUT_MAX ≡ 65536 }
    ensures answer { ANSWER_MAX ≡ 4194304 }
    ensures patience { PATIENCE ≡ 150 }
{}

/// The laws of what is sent: one line and its line feed, which an agent reads as what the words of the call ask for. Where nothing
/// is sent, an agent would refuse the words for the same reason.
pub fn lines_are_read()
    ensures sent { SentIsAsked }
    ensures unsent { UnsentIsRefused }
{}
