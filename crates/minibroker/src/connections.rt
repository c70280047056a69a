//! Where connections come from.
ghost use Rattle.std.specs.Prelude.{◌≡◌, List, Option, None, MatchResult, [], ◌∷◌};
ghost use Rattle.minibroker.specs.Serving.{Connection, HandsOut, IsNoneHanded};

use base_device::{Sink, Source};
use program_report::Stop;

/// A connection that has come.
#[derive(Drop)]
pub struct Handed<C> {
    /// What is read from it and written to it.
    pub stream: C,
    /// Whether its reads and writes have time-outs.
    pub has_time: bool,
}

/// What hands out connections, one after another, as they come.
pub trait Connections {
    /// One connection.
    type Stream: Source + Sink + Drop;

    /// Those that it has handed out, from the first on, where they are known.
    ghost handed: { Self → Option (List Connection) } = { λ _. None };

    /// Waits for the next connection, and hands it out. An error hands out none: `Memory`, or `Read` where none can be had.
    fn accept(&mut self) -> Result<Handed<Self::Stream>, Stop>
        ensures { MatchResult result
            (λ h. HandsOut (Self.handed self.old) (Self.handed self.new) (record { bytes = (Self.Stream.seen h.stream).input.remaining; has_time = h.has_time } ∷ []))
            (λ stop. IsNoneHanded stop × HandsOut (Self.handed self.old) (Self.handed self.new) []) };
}
