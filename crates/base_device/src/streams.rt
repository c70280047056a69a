/// The streams of a command that answers lines.
#[derive(Debug, Drop)]
pub struct Streams<R, W, E> {
    /// The lines that it answers.
    pub lines: R,
    /// What it answers them.
    pub out: W,
    /// The one line of what stopped it.
    pub errors: E,
}
