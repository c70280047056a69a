//! The client whose request was taken last is answered.
ghost use Rattle.std.specs.Prelude.{◌≡◌};
ghost use Rattle.agent_house.specs.Houses.{ClientIsAnswered, ClientIsAside, ClientIsSent, IsAnsweredAside, SendsAside, WillRefuse, WillTell, bytes_sent};

use crate::given::{Given, GivenAside};
use crate::house::House;
use agent_answers::Control;
use agent_standing::Agent;
use agent_words::{refusal_for, reply_to};
use base_clients::{Door, Talk};
use base_moment::Text;
use std::alloc::Global;

impl<S, T: Talk, D: Door<T>, K, E> House<S, T, D, K, E> {
    /// The client is to be told what came of what it asked for, once that is settled: the line that says that it was done, or why it
    /// was not; `None` where memory was wanting for that. `now` is in milliseconds of the clock that never steps.
    pub(crate) fn will_tell(
        &mut self,
        alloc: Global,
        outcome: Result<Option<Text>, Option<Text>>,
        now: u64,
    )
        ensures { WillTell outcome now self.old self.new }
    {
        self.given = Some(Given::Answer {
            sent: reply_to(alloc, outcome),
            at: now,
        });
    }

    /// The same, where it was not done for these reasons; there are none where memory was wanting for them.
    pub(crate) fn will_refuse(&mut self, alloc: Global, whys: Vec<Text>, now: u64)
        ensures { WillRefuse whys.items now self.old self.new }
    {
        self.given = Some(Given::Answer {
            sent: refusal_for(alloc, whys),
            at: now,
        });
    }

    /// The client is sent this, and its connection is closed after it; where memory was wanting for it, it is sent nothing, and that is
    /// said.
    pub(crate) fn send(&mut self, alloc: Global, agent: &Agent, sent: Option<Text>, now: u64)
        ensures { ClientIsSent agent.now sent now self.old self.new }
    {
        let is_enough = sent.is_some();
        answer(&mut self.control, bytes_sent(alloc, sent), now);
        self.desk.hear_want(alloc, agent, is_enough);
    }

    /// The same of a client that was set aside, where there is one.
    pub(crate) fn send_aside(&mut self, alloc: Global, agent: &Agent, aside: GivenAside)
        ensures { SendsAside agent.now aside.client aside.sent aside.at self.old self.new }
    {
        let GivenAside { client, sent, at } = aside;
        let is_enough = sent.is_some();
        answer_aside(&mut self.control, client, bytes_sent(alloc, sent), at);
        self.desk.hear_want(alloc, agent, is_enough);
    }
}

fn bytes_sent(alloc: Global, sent: Option<Text>) -> Vec<u8>
    ensures { result.items ≡ bytes_sent sent }
{
    match sent {
        None => Vec::new(alloc),
        Some(text) => text.into_vec(),
    }
}

/// Answers the client whose request was taken last, where there is a control socket.
pub(crate) fn answer<T: Talk, D: Door<T>>(
    control: &mut Option<Control<T, D>>,
    answer: Vec<u8>,
    now: u64,
)
    ensures { ClientIsAnswered answer.items now control.old control.new }
{
    if let Some(control) = control {
        control.answer(answer, now);
    }
}

/// Answers the client that was set aside under this number, where there is a control socket.
pub(crate) fn answer_aside<T: Talk, D: Door<T>>(
    control: &mut Option<Control<T, D>>,
    client: Option<u64>,
    answer: Vec<u8>,
    now: u64,
)
    ensures { IsAnsweredAside client answer.items now control.old control.new }
{
    let Some(number) = client else {
        return;
    };
    if let Some(control) = control {
        control.answer_aside(number, answer, now);
    }
}

/// The client whose request was taken last is set aside: its number, where there is one.
pub(crate) fn set_aside<T: Talk, D: Door<T>>(control: &mut Option<Control<T, D>>) -> Option<u64>
    ensures { ClientIsAside result control.old control.new }
{
    match control {
        None => None,
        Some(control) => control.set_aside(),
    }
}
