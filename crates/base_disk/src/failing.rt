ghost use Rattle.std.specs.Prelude.{◌≡◌};
ghost use Rattle.base_disk.specs.Memory.{is_turn, next_turn};

/// Which calls of a disk in memory fail.
#[derive(Clone, Copy, Debug, PartialEq, Eq)]
pub enum Failing {
    /// None does.
    Never,
    /// So many go well, and the one after them fails.
    Once(u64),
    /// So many go well, and all after them fail, as where the process was killed there.
    From(u64),
}

impl Failing {
    /// Whether the call whose turn it is fails.
    pub(crate) fn is_turn(self) -> bool
        ensures { result ≡ is_turn self }
    {
        matches!(self, Failing::Once(0) | Failing::From(0))
    }

    /// What is to fail after that call.
    pub(crate) fn next(self) -> Failing
        ensures { result ≡ next_turn self }
    {
        match self {
            Failing::Never | Failing::Once(0) => Failing::Never,
            Failing::From(0) => Failing::From(0),
            Failing::Once(n) => Failing::Once(n - 1),
            Failing::From(n) => Failing::From(n - 1),
        }
    }
}
