//! Needs that are past what their entries reach.
ghost use Rattle.std.specs.Prelude.{◌≡◌, ◌<◌, length, map};
ghost use Rattle.plan_forest.specs.Over.{chain};
ghost use Rattle.watch_machine.specs.Shortness.{is_led, is_owed_over, is_untold, own_reach, short_of, there};
ghost use Rattle.watch_machine.specs.Wanted.{least};

use crate::reading::second;
use crate::track::End;
use crate::wanted::{is_alive, is_fixed, is_never, is_unknown};
use crate::watch::Watch;
use plan_forest::END_MAX;

impl Watch {
    /// An end by the broker's clock, 0 where it is unknown, past every need where there is none.
    fn there(&self, end: End) -> u64
        ensures { result ≡ there self.now end }
    {
        match end {
            End::Unknown => 0,
            End::At(end) => self.broker_moment(end),
            End::Never => END_MAX,
        }
    }

    /// Whether renewals still lead an entry: its end is unknown, or ahead and not the last.
    #[tactic(auto, unfolding(crate::specs::Shortness::is_led))]
    fn is_led(&self, index: u32) -> bool
        requires { index < length self.now.forest.entries }
        ensures { result ≡ is_led self.now index }
    {
        let track = self.track(index);
        is_unknown(track.end) || (is_alive(track, second(self.clocks.at)) && !is_fixed(track))
    }

    /// Whether nothing is known of an entry: nobody has told its end, and the inventory does not say it.
    #[tactic(auto, unfolding(crate::specs::Shortness::is_untold))]
    fn is_untold(&self, index: u32) -> bool
        requires { index < length self.now.forest.entries }
        ensures { result ≡ is_untold self.now index }
    {
        is_unknown(self.track(index).end) && self.forest.get(index).end == 0
    }

    /// How far renewals can lead an entry by itself, by the broker's clock, past every need where there is no limit, or where
    /// nothing is known of it.
    #[tactic(auto, unfolding(crate::specs::Shortness::own_reach, plan_rule::specs::Reach::reach_of))]
    fn own_reach(&self, index: u32) -> u64
        requires { index < length self.now.forest.entries }
        ensures { result ≡ own_reach self.now index }
    {
        let end = self.track(index).end;
        if is_never(end) || self.is_untold(index) {
            return END_MAX;
        }
        let end = self.there(end);
        if !self.is_led(index) {
            return end;
        }
        match self.forest.get(index).ceiling {
            None => END_MAX,
            Some(ceiling) => end.max(ceiling),
        }
    }

    /// The lesser of `above` and the least reach of the entries over this one, itself included, by the broker's clock.
    fn least_reach(&self, index: u32, above: u64) -> u64
        requires { index < length self.now.forest.entries }
        ensures { result ≡ least above (map (own_reach self.now) (chain self.now.forest.entries index)) }
    {
        let least = above.min(self.own_reach(index));
        match self.forest.get(index).parent {
            None => least,
            Some(parent) => self.least_reach(parent, least),
        }
    }

    /// Whether a lookup is owed of an entry or of one over it.
    fn is_owed_over(&self, index: u32) -> bool
        requires { index < length self.now.forest.entries }
        ensures { result ≡ is_owed_over self.now index }
    {
        if self.track(index).owes {
            return true;
        }
        match self.forest.get(index).parent {
            None => false,
            Some(parent) => self.is_owed_over(parent),
        }
    }

    /// How far an entry can be led, in seconds by the broker's clock, where that is before its need and the need is ahead; else
    /// `None`. It is also `None` while a lookup is owed of the entry or of one over it, which may tell more.
    #[tactic(auto, unfolding(crate::specs::Shortness::short_of, crate::specs::Shortness::least_own_reach))]
    pub fn short_of(&self, index: u32) -> Option<u64>
        requires { index < length self.now.forest.entries }
        ensures { result ≡ short_of self.now index }
    {
        if self.is_owed_over(index) {
            return None;
        }
        let need = self.forest.get(index).need;
        let now = self.broker_moment(second(self.clocks.at));
        let reach = self.least_reach(index, END_MAX);
        if now < need && reach < need {
            Some(reach)
        } else {
            None
        }
    }
}
