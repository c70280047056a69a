ghost use Rattle.std.specs.Prelude.{◌≡◌, codes};
ghost use Rattle.base_log.specs.Lines.{is_alerted, level_name, level_mark};

/// How much a line of the log matters.
#[derive(Clone, Copy, Debug, PartialEq, Eq)]
pub enum Level {
    /// What happens every day.
    Info,
    /// What is not as it should be, and mends itself.
    Note,
    /// What somebody has to look at.
    Warning,
    /// What somebody has to look at now.
    Alert,
}

impl Level {
    /// Whether it is told to those who follow warnings and alerts alone.
    pub fn is_alerted(self) -> bool
        ensures { result ≡ is_alerted self }
    {
        match self {
            Level::Info | Level::Note => false,
            Level::Warning | Level::Alert => true,
        }
    }

    /// Its name in JSON.
    pub fn name(self) -> &'static str
        ensures { result.now ≡ level_name self }
    {
        match self {
            Level::Info => "info",
            Level::Note => "note",
            Level::Warning => "warning",
            Level::Alert => "alert",
        }
    }

    /// What stands before the event in a line for people.
    pub fn mark(self) -> &'static str
        ensures { result.now ≡ level_mark self }
    {
        match self {
            Level::Info => "",
            Level::Note => "note: ",
            Level::Warning => "warning: ",
            Level::Alert => "alert: ",
        }
    }
}
