ghost use Rattle.state_notes.specs.Laws.{NoteShowsNone, WhyShowsNone};

/// The laws of secrecy: of two changes that differ in their credentials alone the same is said.
pub fn no_line_shows_a_credential()
    ensures why { WhyShowsNone }
    ensures note { NoteShowsNone }
{}
