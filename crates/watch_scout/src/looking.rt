//! Which entries are looked up at a clock, and when the next look is due.
ghost use Rattle.std.specs.Prelude.{◌≡◌, ◌<◌, ◌≤◌, ◌+◌, ◌-◌, IfSome, length};
ghost use Rattle.watch_machine.specs.Wanted.{is_wanted};
ghost use Rattle.watch_scout.specs.Looking.{awaits, came_up, first_from, found, goes_out, had_look, is_at_hand, is_for, is_new, known_end, lead, look_moment, next_look, next_moment};

use crate::scout::{Scout, Seen};
use crate::second::second;
use watch_machine::{End, Millis, Seconds, Watch};

/// Whether an entry has had its look for that end.
fn is_for(looked: Option<Seconds>, end: Seconds) -> bool
    ensures { result ≡ is_for looked end }
{
    match looked {
        None => false,
        Some(looked) => looked == end,
    }
}

/// Whether an end is known, and ahead in that second, and its entry has had no look for it yet.
fn is_new(now: Seconds, looked: Option<Seconds>, end: End) -> bool
    ensures { result ≡ is_new now looked end }
{
    match end {
        End::Unknown => false,
        End::At(end) => now < end && !is_for(looked, end),
        End::Never => false,
    }
}

/// An end, where it is known.
fn known_end(end: End) -> Option<Seconds>
    ensures { result ≡ known_end end }
{
    match end {
        End::Unknown => None,
        End::At(end) => Some(end),
        End::Never => None,
    }
}

/// One lookup more is out, of so many that may be.
fn one_more(out: u32, width: u32) -> u32
    requires { out < width }
    ensures { result ≡ out + 1 }
{
    out + 1
}

impl Scout {
    /// How long before its time an entry is looked up, in milliseconds.
    pub fn lead(&self, watch: &Watch) -> Millis
        ensures { result ≡ lead self.now watch.now }
    {
        let more = self.margin.saturating_sub(watch.forest().margin());
        u64::from(more) * 500
    }

    /// The look moment of an entry.
    fn look_moment(&self, watch: &Watch, index: u32) -> Millis
        requires { index < length watch.now.forest.entries }
        ensures { result ≡ look_moment self.now watch.now index }
    {
        (watch.time_of(index) * 1000).saturating_sub(self.lead(watch))
    }

    /// Whether an entry awaits its look: it has had none for its believed end, which is ahead, and nothing of it is out.
    #[tactic(auto, unfolding(crate::specs::Looking::awaits))]
    fn awaits(&self, watch: &Watch, index: u32) -> bool
        requires within { index < length watch.now.forest.entries }
        requires count { length self.now.seen ≡ length watch.now.forest.entries }
        ensures { result ≡ awaits self.now watch.now index }
    {
        let track = watch.track(index);
        let seen = self.seen(index);
        let now = second(watch.clocks().at);
        is_new(now, seen.looked, track.end) && !track.out && seen.since.is_none()
    }

    /// Whether its look moment has come besides, and its time has not.
    #[tactic(auto, unfolding(crate::specs::Looking::is_at_hand))]
    fn is_at_hand(&self, watch: &Watch, index: u32) -> bool
        requires within { index < length watch.now.forest.entries }
        requires count { length self.now.seen ≡ length watch.now.forest.entries }
        ensures { result ≡ is_at_hand self.now watch.now index }
    {
        let at = watch.clocks().at;
        self.awaits(watch, index)
            && self.look_moment(watch, index) <= at
            && second(at) < watch.time_of(index)
    }

    /// An entry has its look for the end that it has: its lookup goes out if it is wanted.
    fn has_look(&mut self, watch: &Watch, index: u32) -> bool
        requires within { index < length watch.now.forest.entries }
        requires count { length self.old.seen ≡ length watch.now.forest.entries }
        requires free { self.old.out < self.old.width }
        ensures wanted { result ≡ is_wanted watch.now index }
        ensures state { self.new ≡ had_look self.old watch.now index }
    {
        let looked = known_end(watch.end_of(index));
        let is_wanted = watch.is_wanted(index);
        if is_wanted {
            let out = one_more(self.out, self.width);
            let since = Some(watch.clocks().at);
            self.set_seen(index, Seen { looked, since });
            self.out = out;
        } else {
            let since = self.seen(index).since;
            self.set_seen(index, Seen { looked, since });
        }
        is_wanted
    }

    /// An entry comes up: its lookup goes out where it is at hand and wanted.
    fn comes_up(&mut self, watch: &Watch, index: u32) -> bool
        requires within { index < length watch.now.forest.entries }
        requires count { length self.old.seen ≡ length watch.now.forest.entries }
        requires free { self.old.out < self.old.width }
        ensures goes { result ≡ goes_out self.old watch.now index }
        ensures state { self.new ≡ came_up self.old watch.now index }
    {
        if !self.is_at_hand(watch, index) {
            return false;
        }
        self.has_look(watch, index)
    }

    /// Entries come up from the index `from` on, one after another, until a lookup goes out.
    fn first_from(&mut self, watch: &Watch, from: u32) -> Option<u32>
        requires count { length self.old.seen ≡ length watch.now.forest.entries }
        requires free { self.old.out < self.old.width }
        ensures entry { result ≡ (first_from watch.now from (length watch.now.forest.entries - from) self.old).entry }
        ensures state { self.new ≡ (first_from watch.now from (length watch.now.forest.entries - from) self.old).state }
        ensures within { IfSome result (λ i. i < length watch.now.forest.entries) }
    {
        for index in from..watch.forest().len() {
            if self.comes_up(watch, index) {
                return Some(index);
            }
        }
        None
    }

    /// The first entry from the index `from` on that is to be looked up now, `None` where there is none, or no lane is free. Its lookup
    /// counts as out from then on.
    ///
    /// To be asked behind each clock that the watch has taken: from 0 on, and again from behind each entry that is found. A lookup goes out
    /// in a lane of the scout's own.
    #[tactic(auto, unfolding(crate::specs::Looking::found))]
    pub fn look(&mut self, watch: &Watch, from: u32) -> Option<u32>
        requires count { length self.old.seen ≡ length watch.now.forest.entries }
        ensures entry { result ≡ (found self.old watch.now from).entry }
        ensures state { self.new ≡ (found self.old watch.now from).state }
        ensures within { IfSome result (λ i. i < length watch.now.forest.entries) }
    {
        if self.out >= self.width {
            return None;
        }
        self.first_from(watch, from)
    }

    /// The look moment of an entry that awaits its look, where it is ahead; else `until`.
    #[tactic(auto, unfolding(crate::specs::Looking::next_look))]
    fn next_look(&self, watch: &Watch, until: Millis, index: u32) -> Millis
        requires within { index < length watch.now.forest.entries }
        requires count { length self.now.seen ≡ length watch.now.forest.entries }
        ensures { result ≡ next_look self.now watch.now until index }
    {
        let moment = self.look_moment(watch, index);
        if self.awaits(watch, index) && watch.clocks().at < moment {
            moment
        } else {
            until
        }
    }

    /// The moment at which a look is next due, or `until`, the one until which the watch waits, where that is earlier. A look that is due
    /// and has not gone out waits for a lane, and an answer comes first.
    #[tactic(auto, unfolding(crate::specs::Looking::next_moment))]
    pub fn next(&self, watch: &Watch, until: Millis) -> Millis
        requires count { length self.now.seen ≡ length watch.now.forest.entries }
        ensures { result ≡ next_moment self.now watch.now until }
    {
        let mut least = until;
        for index in 0..watch.forest().len() {
            least = least.min(self.next_look(watch, until, index));
        }
        least
    }
}
