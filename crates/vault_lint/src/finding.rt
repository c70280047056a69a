/// Whether an inventory with a finding is served.
#[derive(Clone, Copy, Debug, PartialEq, Eq)]
pub enum Severity {
    /// It is not.
    Fault,
    /// It is.
    Doubt,
}

impl Severity {
    /// Its word.
    pub fn word(self) -> &'static str {
        match self {
            Severity::Fault => "fault",
            Severity::Doubt => "doubt",
        }
    }
}

/// What is wrong with an inventory, or may be: where, and what helps. No credential is in it.
#[derive(Debug, Drop)]
pub struct Finding {
    pub severity: Severity,
    /// The line, counted from 1; 0 where none is meant, or none is found.
    pub line: u64,
    /// What the entry is called; empty where none is meant.
    pub entry: String,
    /// The key; empty where none is meant.
    pub key: &'static str,
    /// What is wrong.
    pub problem: String,
    /// What helps.
    pub mend: String,
}
