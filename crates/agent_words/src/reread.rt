use base_moment::Text;

/// What is said of a file that was read anew.
#[derive(Debug, Drop)]
pub struct Reread {
    /// What is said of each change that does not hold any more.
    pub notes: Vec<Text>,
    /// What is said of its copy, where that could not be kept.
    pub unkept: Option<Text>,
}
