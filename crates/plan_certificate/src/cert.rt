use base_moment::Moment;
use plan_forest::Listed;
use plan_rule::Run;

/// The most lines of wake-ups (version 1) or of runs (version 2) in a certificate's text.
pub const MAX_LINES: u64 = 100_000;

/// The most bytes of a certificate's text that a program reads from a file: 16 MiB.
pub const MOST_CERTIFICATE: usize = 16_777_216;

/// Which of the two forms of text a certificate has.
#[derive(Clone, Copy, Debug, PartialEq, Eq)]
pub enum Version {
    /// A line for each wake-up.
    One,
    /// A line for each run of wake-ups.
    Two,
}

/// Runs of wake-ups, in the order of their moments.
pub type Runs = Listed<Run>;

/// What a certificate claims of a forest.
#[derive(Debug, Drop)]
pub enum Body {
    /// These wake-ups are least and latest; each run names the pair of entries that forces its wake-ups.
    Runs(Runs),
    /// No plan keeps: `entry` cannot be led to the need of `needed`, which it is over.
    Unkeepable { entry: u32, needed: u32 },
}

/// A certificate: what a planner claims from a start on.
#[derive(Debug, Drop)]
pub struct Cert {
    pub version: Version,
    pub start: Moment,
    pub body: Body,
}
