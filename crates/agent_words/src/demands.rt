ghost use Rattle.std.specs.Prelude.{◌≡◌};
ghost use Rattle.agent_words.specs.Starts.{least_margin};

/// By how many time-outs a margin is longer at least.
const LEAST_TIMEOUTS: u64 = 4;

/// The same where the agent stands behind another.
const LEAST_TIMEOUTS_BEHIND: u64 = 8;

/// What is demanded of an inventory that is to be served.
#[derive(Clone, Copy, Debug)]
pub struct Demands {
    /// How long the connect, the write and the first read of a request may take, in seconds. The margin is four times as long at least,
    /// and eight times where the agent stands behind another.
    pub timeout: u32,
    /// Whether the name of an entry may be sent as its credential, where none is written.
    pub names_are_secrets: bool,
    /// By how many seconds the agent wakes up earlier than its margin alone says: its part of a spread, or 0. Behind another it does not.
    pub earlier: u32,
    /// Where the agent stands behind another, the number of its name, which says how much smaller its margin is.
    pub behind: Option<u64>,
}

impl Demands {
    /// How long the margin is at least, in seconds.
    pub(crate) fn least_margin(self) -> u64
        ensures { result ≡ least_margin self }
    {
        let timeout = u64::from(self.timeout);
        match self.behind {
            None => LEAST_TIMEOUTS * timeout,
            Some(_) => LEAST_TIMEOUTS_BEHIND * timeout,
        }
    }
}
