ghost use Rattle.std.specs.Prelude.{◌≡◌};
ghost use Rattle.program_report.specs.Exits.{exit_code};

/// How a run ends. Each exit but `Done`, `Unkeepable` and `No` comes with one line on the writer for faults.
#[derive(Clone, Copy, Debug, PartialEq, Eq)]
pub enum Exit {
    /// 0: done.
    Done,
    /// 1: the text is no inventory.
    Inventory,
    /// 2: the command line, its moments or its FAULT words.
    CommandLine,
    /// 3: no plan keeps every entry as long as it is needed.
    Unkeepable,
    /// 4: the certificate is unreadable, or the checker says no.
    No,
    /// 5: the plan, or the rehearsal, would have too many wake-ups.
    TooLong,
    /// 6: a read or a write failed, an input passed a limit, or the broker gave no readable answer.
    Device,
    /// 7: memory was refused.
    Memory,
}

impl Exit {
    /// The exit status of the process.
    pub fn code(self) -> u8
        ensures { result ≡ exit_code self }
    {
        match self {
            Exit::Done => 0,
            Exit::Inventory => 1,
            Exit::CommandLine => 2,
            Exit::Unkeepable => 3,
            Exit::No => 4,
            Exit::TooLong => 5,
            Exit::Device => 6,
            Exit::Memory => 7,
        }
    }
}
