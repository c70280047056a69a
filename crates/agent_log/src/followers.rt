//! Those who follow the log are given what waits for them.
ghost use Rattle.std.specs.Prelude.{◌≡◌, ◌≤◌, filter, length, nat_lt, not};
ghost use Rattle.agent_log.specs.Feeding.{AreFed, BecomesFed, EachIsFed, FollowerIsFed, IsFedAtMost, IsGivenOf};
ghost use Rattle.agent_words.specs.Moments.{second_of};

use crate::desk::Desk;
use crate::log_line::Pen;
use crate::log_reader::tell_if;
use agent_answers::RequestLines;
use base_clients::{Clients, Fed, Talk};
use base_clock::Reading;
use base_log::Follower;
use std::alloc::{AllocError, Global};

impl Desk {
    /// Gives the connection of each of those who follow the log what one call of it writes of the lines that wait. No call is made.
    pub fn feed<T: Talk>(
        &mut self,
        alloc: Global,
        clients: &mut Clients<T, RequestLines>,
        now: Reading,
    )
        ensures fed { AreFed self.old.form (second_of now.wall) self.old.room self.new.room clients.old clients.new }
        ensures rest { self.new ≡ record self.old { room = self.new.room } }
    {
        feed_each(&self.pen_at(alloc, now), &mut self.room.followers, clients);
        drop_gone(&mut self.room.followers);
    }
}

// Those who have gone follow no more.
fn drop_gone(followers: &mut Vec<Follower>)
    ensures { followers.new.items ≡ filter (λ f. not f.has_gone) followers.old.items }
{
    followers.retain(|follower| !follower.has_gone);
}

fn feed_each<T: Talk>(pen: &Pen, followers: &mut [Follower], clients: &mut Clients<T, RequestLines>)
    ensures many { length followers.new ≡ length followers.old }
    ensures fed { EachIsFed pen.now.form pen.now.moment followers.old followers.new clients.old clients.new }
{
    for follower in followers.iter_mut() {
        feed_one(pen, follower, clients);
    }
}

#[tactic(auto, using(crate::proofs::Within::fed_within))]
fn feed_one<T: Talk>(pen: &Pen, follower: &mut Follower, clients: &mut Clients<T, RequestLines>)
    ensures { FollowerIsFed pen.now.form pen.now.moment follower.old follower.new clients.old clients.new }
{
    let fed = clients.feed(follower.id, follower.room.waiting());
    become_fed(pen, fed, follower);
}

// What one becomes by what came of it.
fn become_fed(pen: &Pen, fed: Result<Fed, AllocError>, follower: &mut Follower)
    requires { IsFedAtMost (length follower.old.room.bytes) fed }
    ensures { BecomesFed pen.now.form pen.now.moment fed follower.old follower.new }
{
    match fed {
        Ok(Fed::Gone) => follower.has_gone = true,
        Ok(Fed::Taken(taken)) => pass(pen, taken, follower),
        Ok(Fed::Full) | Err(AllocError) => {}
    }
}

// So many bytes were taken.
fn pass(pen: &Pen, taken: usize, follower: &mut Follower)
    requires { taken ≤ length follower.old.room.bytes }
    ensures { IsGivenOf pen.now.form pen.now.moment taken follower.old follower.new }
{
    follower.room.pass(taken);
    tell_if(pen, is_some(taken), &mut follower.room);
}

fn is_some(taken: usize) -> bool
    ensures { result ≡ nat_lt 0 taken }
{
    taken > 0
}
