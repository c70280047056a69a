//! A client asks that the file is read anew.
ghost use Rattle.std.specs.Prelude.{◌≡◌, IfSome};
ghost use Rattle.agent_house.specs.Commands.{Reloads, RereadBy, RereadIf, TellsNotKept, TellsReread, TellsUnread, path_if_kept};
ghost use Rattle.agent_words.specs.Telling.{reload_line};

use crate::house::House;
use crate::keep_news::{read_badly, read_well};
use agent_ledger::Keeping;
use agent_standing::Agent;
use agent_words::{Reread, reload_line, why_not_kept};
use base_clients::{Door, Talk};
use base_clock::Reading;
use base_moment::Text;
use std::alloc::Global;

impl<S, T: Talk, D: Door<T>, K: Keeping, E> House<S, T, D, K, E> {
    /// The file is read anew, and served from then on; or it stays as it was, with an alert for each reason.
    pub(crate) fn reload(&mut self, alloc: Global, agent: &Agent, now: Reading)
        ensures { Reloads K.does K.keeps K.path agent.now now self.old self.new }
    {
        match reread_by(alloc, &mut self.state, now) {
            None => self.tell_not_kept(alloc, agent, now),
            Some(Ok(reread)) => self.tell_reread(alloc, agent, now, &reread),
            Some(Err(whys)) => self.tell_unread(alloc, agent, now, whys),
        }
    }

    fn tell_not_kept(&mut self, alloc: Global, agent: &Agent, now: Reading)
        ensures { TellsNotKept agent.now now self.old self.new }
    {
        let why = why_not_kept(alloc);
        self.will_tell(alloc, Err(why), now.elapsed);
    }

    fn tell_reread(&mut self, alloc: Global, agent: &Agent, now: Reading, reread: &Reread)
        ensures { TellsReread K.path agent.now now reread.now self.old self.new }
    {
        let line = line_if(alloc, &self.state);
        self.desk.hear_reread(alloc, agent, reread);
        self.file = read_well(now);
        self.will_tell(alloc, Ok(line), now.elapsed);
    }

    fn tell_unread(&mut self, alloc: Global, agent: &Agent, now: Reading, whys: Vec<Text>)
        ensures { TellsUnread agent.now now whys.items self.old self.new }
    {
        self.desk.hear_faults(alloc, agent, &whys);
        self.file = read_badly(now, self.file);
        self.will_refuse(alloc, whys, now.elapsed);
    }
}

// Reads the file anew, where something keeps changes.
fn reread_by<K: Keeping>(
    alloc: Global,
    state: &mut Option<K>,
    now: Reading,
) -> Option<Result<Reread, Vec<Text>>>
    ensures { RereadBy K.does K.keeps now result state.old state.new }
{
    match state {
        None => None,
        Some(state) => reread_if(alloc, state, now),
    }
}

fn reread_if<K: Keeping>(
    alloc: Global,
    state: &mut K,
    now: Reading,
) -> Option<Result<Reread, Vec<Text>>>
    ensures { RereadIf K.does (K.keeps state.old) now result state.old state.new }
{
    if state.keeps() {
        Some(state.reload(alloc, now.elapsed))
    } else {
        None
    }
}

// That the file was read anew; `None` where memory was wanting, and where there is none.
fn line_if<K: Keeping>(alloc: Global, state: &Option<K>) -> Option<Text>
    ensures { IfSome result (λ line. line ≡ reload_line (path_if_kept K.path state.now)) }
{
    let Some(state) = state else {
        return None;
    };
    reload_line(alloc, state.path()).ok()
}
