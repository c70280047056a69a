ghost use Rattle.std.specs.Prelude.{◌≡◌};
ghost use Rattle.base_log.specs.declared.line.LineWord.{LineWord};
ghost use Rattle.agent_words.specs.Moments.{moment_word, now_of, second_of};

use base_log::LineWord;
use base_moment::{LAST, Moment};
use watch_machine::Watch;

/// The second that a wall clock shows at so many milliseconds, no later than the last moment.
pub fn second_of(millis: u64) -> Moment
    ensures { result ≡ second_of millis }
{
    Moment::new((millis / 1000).min(LAST)).unwrap()
}

/// What the wall's clock shows, as the machine has it, at the moment that was handed in last.
pub fn now_of(watch: &Watch) -> Moment
    ensures { result ≡ now_of watch.now }
{
    let clocks = watch.clocks();
    let millis = clocks.at.saturating_add(clocks.wall.there);
    second_of(millis.saturating_sub(clocks.wall.here))
}

/// A moment as a word, no later than the last one.
pub fn moment_word(seconds: u64) -> LineWord
    ensures { result ≡ moment_word seconds }
{
    LineWord::Moment(Moment::new(seconds.min(LAST)).unwrap())
}
