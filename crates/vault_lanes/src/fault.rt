/// What is to go wrong with a request in memory.
#[derive(Clone, Copy, Debug, PartialEq, Eq)]
pub enum LaneFault {
    /// Nobody listens.
    Refuse,
    /// The connection is closed before the request is read.
    Lose,
    /// The request is served, and no byte of a reply comes.
    Hang,
    /// The request is served, and the reply is there so many milliseconds later.
    Late(u64),
    /// The request is served, and what comes is no reply.
    Garble,
    /// The request is not served, and the reply has this status and no body.
    Status(u16),
}

/// A fault of the request with that number, counted from 1 over all that are sent.
#[derive(Clone, Copy, Debug, PartialEq, Eq)]
pub struct NumberedLaneFault {
    pub number: u64,
    pub fault: LaneFault,
}
