//! A client asks for the log's lines from now on.
ghost use Rattle.std.specs.Prelude.{◌≡◌, ◌≤◌, IfSome, OnErr, OnOk, codes, length};
ghost use Rattle.agent_house.specs.Admitting.{AdmitsIf, AnswerBeginsWith, FollowsLog, asking_in};

use crate::house::House;
use agent_answers::Control;
use base_clients::{Door, Talk};
use base_clock::Reading;
use base_moment::Text;
use std::alloc::{AllocError, Global};

/// The most who follow the log at a time.
pub const MOST_FOLLOWERS: usize = 8;

impl<S, T: Talk, D: Door<T>, K, E> House<S, T, D, K, E> {
    /// The client is sent `ok`, and then the log's lines from now on, all of them or warnings and alerts alone, until it goes. Where as
    /// many as may be follow the log already, it is told so.
    #[tactic(auto, using(crate::proofs::Admits::not_admitted, crate::proofs::Admits::admitted, crate::proofs::Admits::lacking))]
    pub(crate) fn follow(&mut self, alloc: Global, now: Reading, alerts: bool)
        ensures { FollowsLog now alerts self.old self.new }
    {
        if self.desk.room.followers.len() >= MOST_FOLLOWERS {
            self.will_tell(alloc, Err(full_words(alloc)), now.elapsed);
            return;
        }
        match self.admit(alloc, alerts) {
            Ok(()) => {}
            Err(AllocError) => self.will_tell(alloc, Err(None), now.elapsed),
        }
    }

    // The client follows from now on. The only error is lack of memory: nothing is done then.
    #[tactic(auto, using(crate::proofs::Admits::nobody_asks, crate::proofs::Admits::one_asks))]
    fn admit(&mut self, alloc: Global, alerts: bool) -> Result<(), AllocError>
        ensures admitted { OnOk result (AdmitsIf (asking_in self.old.control) alerts self.old self.new) }
        ensures refused { OnErr result (self.new ≡ self.old) }
    {
        let Some(id) = asking_in(&self.control) else {
            return Ok(());
        };
        let answer = Vec::from_slice(alloc, b"ok\n")?;
        self.desk.room.admit(alloc, id, alerts)?;
        begin(&mut self.control, answer);
        Ok(())
    }
}

// The number of the client whose request was taken last, as long as it is not answered.
fn asking_in<T, D>(control: &Option<Control<T, D>>) -> Option<u64>
    ensures { result ≡ asking_in control.now }
{
    match control {
        None => None,
        Some(control) => control.asking,
    }
}

// Its answer begins with this, and goes on.
fn begin<T: Talk, D: Door<T>>(control: &mut Option<Control<T, D>>, answer: Vec<u8>)
    ensures { AnswerBeginsWith answer.items control.old control.new }
{
    if let Some(control) = control {
        let _number = control.follow(answer);
    }
}

fn full_words(alloc: Global) -> Option<Text>
    ensures { IfSome result (λ words. words ≡ codes "8 clients follow the log already") }
{
    Text::of(alloc, b"8 clients follow the log already").ok()
}
