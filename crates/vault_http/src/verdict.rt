/// A verdict on the bytes that were read so far.
#[derive(Drop)]
pub(crate) enum Verdict<K, T> {
    /// No answer yet, but what is known of the bytes, so that no work on them is done again.
    More(K),
    /// An answer, whatever follows.
    Done(T),
}
