use base_moment::Text;

/// What the table of an entry leaves open.
#[derive(Debug, Drop)]
pub struct EntryNote {
    /// Whether its issue and its end are written; where they are not, a lookup tells them.
    pub is_told: bool,
    /// Whether it is needed as long as it can be kept.
    pub is_always: bool,
    /// The path of the file that holds its credential, if one is written.
    pub file: Option<Text>,
}
