/// What a call that goes on with guests came to.
#[derive(Clone, Copy, Debug, PartialEq, Eq)]
pub struct Went {
    /// Whether more could be done at once, by the caller too where a request is there that it may take. Where it could not, the
    /// next call is due once a guest or the door is told of, or time has passed.
    pub is_busy: bool,
    /// Whether memory sufficed. Where it did not, somebody was not let in, or was lost or sent away without an answer.
    pub is_enough: bool,
}
