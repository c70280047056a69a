use base_moment::Text;
use program_report::Exit;

/// The whole text that a run writes, and its exit once it is written.
#[derive(Debug, Drop)]
pub(crate) struct Outcome {
    pub exit: Exit,
    pub text: Text,
}
