/// The most bytes of standard input that a call takes.
pub const INPUT_MAX: usize = 65536;

/// The most bytes of an answer.
pub const ANSWER_MAX: usize = 4_194_304;

/// How long the connect, each write and each read of a call may take, in seconds: longer than the longest lookup of a new
/// credential, which an agent makes before it answers.
pub const PATIENCE: u64 = 150;
