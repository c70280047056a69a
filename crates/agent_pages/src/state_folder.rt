//! Whether a state folder keeps changes over a restart.
ghost use Rattle.std.specs.Prelude.{◌≡◌};
ghost use Rattle.agent_pages.specs.Folders.{folder_line, is_open};

/// Whether changes are kept over a restart.
#[derive(Clone, Copy, Debug, PartialEq, Eq)]
pub enum StateFolder {
    /// They are not: no folder was asked for.
    NotAskedFor,
    /// They are not yet: the folder cannot be used, and is tried again.
    CannotBeUsed,
    /// They are, in the folder.
    IsOpen,
}

impl StateFolder {
    /// Whether changes are kept in it.
    pub(crate) fn is_open(self) -> bool
        ensures { result ≡ is_open self }
    {
        matches!(self, StateFolder::IsOpen)
    }

    /// What health says of it: a line where it was asked for and cannot be used, else nothing.
    pub(crate) fn line(self) -> &'static str
        ensures { result.now ≡ folder_line self }
    {
        match self {
            StateFolder::NotAskedFor | StateFolder::IsOpen => "",
            StateFolder::CannotBeUsed => {
                "changes hold until a restart only: the state folder cannot be used\n"
            }
        }
    }
}
