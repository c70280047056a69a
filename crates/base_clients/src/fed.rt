/// What came of bytes for a guest whose answer goes on.
#[derive(Clone, Copy, Debug, PartialEq, Eq)]
pub enum Fed {
    /// Nobody follows under that number: the guest has gone.
    Gone,
    /// Something is still to be written of what it was given before; none of these bytes was taken.
    Full,
    /// So many of these bytes, the first of them, are to be written.
    Taken(usize),
}
