ghost use Rattle.std.specs.Prelude.{◌≡◌, List};
ghost use Rattle.std.specs.Iterator.{YieldsFirst, item_count};
ghost use Rattle.plan_rule.specs.Runs.{AreRuns, all_wakes};

use crate::runs::behind_first;
use base_moment::Moment;
use plan_schedule::{Force, Run};
use std::marker::Model;

/// The wake-ups of a plan that are still to come, one after the other, each with its force. It takes no memory.
#[derive(Drop)]
pub struct Wakes<'a> {
    run: Option<Run>,
    rest: &'a [Run],
}

impl<'a> Model for Wakes<'a> {
    ghost use Rattle.std.specs.Prelude.{List};
    ghost use Rattle.plan_rule.specs.declared.force.Force.{Force};
    ghost use Rattle.plan_rule.specs.Runs.{AreRuns, all_wakes};
    ghost use Rattle.plan_search.specs.Planned.{in_front};

    ghost Value = { List Force };

    ghost view = { λ w. all_wakes (in_front w.run w.rest.now) };

    ghost invariant = { λ w. AreRuns (in_front w.run w.rest.now) };
}

impl<'a> Wakes<'a> {
    /// The wake-ups of these runs.
    pub(crate) fn new(runs: &'a [Run]) -> Wakes<'a>
        requires { AreRuns runs.now }
        ensures { result ≡ all_wakes runs.now }
    {
        Wakes {
            run: None,
            rest: runs,
        }
    }
}

impl<'a> Iterator for Wakes<'a> {
    type Item = Force;

    ghost next_gives = { YieldsFirst (λ rest. rest) };

    ghost remaining = { item_count (λ rest. rest) };

    fn next(&mut self) -> Option<Force> {
        let run = match self.run {
            Some(run) => run,
            None => {
                let (first, rest) = self.rest.split_first()?;
                self.rest = rest;
                *first
            }
        };
        self.run = behind_first(run);
        Some(Force {
            at: Moment::new(run.first).unwrap(),
            entry: run.entry,
            needed: run.needed,
        })
    }
}
