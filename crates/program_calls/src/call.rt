use crate::ask::CallWords;

/// A call of a running agent.
#[derive(Clone, Copy, Debug)]
pub struct AgentCall<'a> {
    /// The name of the program that calls, for its fault lines.
    pub program: &'a str,
    /// What is asked.
    pub ask: CallWords<'a>,
    /// The path of the agent's control socket.
    pub socket: &'a str,
}
