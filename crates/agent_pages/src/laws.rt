ghost use Rattle.std.specs.Prelude.{◌≡◌};
ghost use Rattle.agent_pages.specs.Answers.{OneAnswer, OneTold};
ghost use Rattle.agent_pages.specs.Board.{NoCredentialShows};
ghost use Rattle.agent_pages.specs.declared.asked.TheConstants.{FIELDS_MAX, HEAD_MAX};

/// The law of the limits: a head has at most 8,192 bytes and 64 fields.
pub fn limits_of_onlookers()
    ensures bytes { HEAD_MAX ≡ 8192 }
    ensures fields { FIELDS_MAX ≡ 64 }
{}

/// The law of secrecy: two agents that differ in credentials and terms alone show the same, also of what their inventories name.
pub fn no_credential_shows()
    ensures { NoCredentialShows }
{}

/// The law that a board is told in one way: a question has one answer, and what a client is told of a page is one text. So nothing shows in
/// them but what is on the board.
pub fn nothing_else_is_told()
    ensures answers { OneAnswer }
    ensures told { OneTold }
{}
