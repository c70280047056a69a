/// Wake-ups at equal distances with one force: `count` of them, the first at `first`, in seconds since
/// 1970-01-01T00:00:00Z, and each `step` seconds after the one before it. `count` is at least 1; `step` is 0 exactly where
/// `count` is 1.
#[derive(Clone, Copy, Debug, PartialEq, Eq)]
pub struct Run {
    pub first: u64,
    pub step: u64,
    pub count: u64,
    pub entry: u32,
    pub needed: u32,
}
