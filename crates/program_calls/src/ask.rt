ghost use Rattle.std.specs.Prelude.{◌≡◌};
ghost use Rattle.program_calls.specs.Asking.{command_word, is_follow, is_health, takes_input};

/// What is asked of a running agent, as the command line says it.
#[derive(Clone, Copy, Debug)]
pub enum CallWords<'a> {
    /// An entry is needed until then from now on.
    Need {
        /// Its name.
        name: &'a str,
        /// A moment, a date, a time from now or `always`.
        when: &'a str,
    },
    /// An entry has the credential from now on that standard input holds.
    Replace {
        /// Its name.
        name: &'a str,
    },
    /// The entry is to be kept whose table standard input holds.
    Add,
    /// An entry is to be kept no more.
    Drop {
        /// Its name.
        name: &'a str,
    },
    /// How each entry stands.
    Status,
    /// Which needed entries are not kept.
    Health,
    /// The inventory's file is to hold every change.
    Settle,
    /// The inventory's file is to be read again.
    Reload,
    /// The log's lines from now on.
    Follow {
        /// Whether warnings and alerts alone are wanted.
        alerts: bool,
    },
}

impl<'a> CallWords<'a> {
    /// The command's word.
    pub fn command(&self) -> &'static str
        ensures { result.now ≡ command_word self.now }
    {
        match self {
            CallWords::Need { .. } => "need",
            CallWords::Replace { .. } => "replace",
            CallWords::Add => "add",
            CallWords::Drop { .. } => "drop",
            CallWords::Status => "status",
            CallWords::Health => "health",
            CallWords::Settle => "settle",
            CallWords::Reload => "reload",
            CallWords::Follow { .. } => "follow",
        }
    }

    /// Whether it takes what standard input holds.
    pub fn takes_input(&self) -> bool
        ensures { result ≡ takes_input self.now }
    {
        matches!(self, CallWords::Replace { .. } | CallWords::Add)
    }

    /// Whether its answer goes on.
    pub fn is_follow(&self) -> bool
        ensures { result ≡ is_follow self.now }
    {
        matches!(self, CallWords::Follow { .. })
    }

    /// Whether it asks which needed entries are not kept.
    pub fn is_health(&self) -> bool
        ensures { result ≡ is_health self.now }
    {
        matches!(self, CallWords::Health)
    }
}
