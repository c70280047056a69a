ghost use Rattle.std.specs.Prelude.{ℕ, List, Bool};

/// What tells that a request is whole.
pub trait Framing {
    /// What it says of these bytes.
    ghost tells: { Self → List ℕ → Bool → Type 0 };

    /// Whether these bytes, the first that a guest has sent, are all that is needed for an answer.
    fn is_whole(&self, bytes: &[u8]) -> bool
        ensures { tells self.now bytes.now result };
}
