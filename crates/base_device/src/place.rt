/// Where a peer listens on this machine.
#[derive(Clone, Copy, Debug, PartialEq, Eq)]
pub enum Place<'a> {
    /// At this port of 127.0.0.1.
    Port(u16),
    /// At the UNIX socket of this path.
    Path(&'a str),
}
