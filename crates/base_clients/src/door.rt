ghost use Rattle.std.specs.Prelude.{Option, None};
ghost use Rattle.base_clients.specs.Doors.{AskedOnce, DoorLog};

/// A listener whose calls do not wait.
///
/// One in memory tells contracts how often it was asked, and whom it let in; of one outside they know nothing.
pub trait Door<T> {
    /// What was asked of it, where it is known.
    ghost log: { Self → Option (DoorLog T) } = { λ _. None };

    /// The next connection, where there is one.
    fn accept(&mut self) -> Option<T>
        ensures { AskedOnce (Self.log self.old) (Self.log self.new) result };
}
