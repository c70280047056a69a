//! The agent of a play ends, and is started again.
use crate::play::Play;
use play_cases::{CaseFault, CaseStep, Ending, Setting, number};

impl<'a> Play<'a> {
    /// The agent ends as these words of a step say, and is started again over the same disks, of which no call fails from now on.
    pub fn end(
        &mut self,
        setting: &mut Setting,
        step: &CaseStep<'_>,
        how: &str,
        seed: &str,
    ) -> Result<(), CaseFault> {
        let seed = number(seed, step.unread())?;
        let ending = match how {
            "killed" => Ending::Killed(seed),
            "lost" => Ending::Lost(seed),
            _ => return Err(step.unread()),
        };
        setting.state.ending = ending;
        setting.ends.ending = ending;
        self.restart(setting, step.refused())
    }
}
