ghost use Rattle.plan_schedule.specs.Given.{GivesHead};

use plan_rule::Force;

/// A list of wake-ups to come, taken from its head.
pub trait Schedule {
    ghost use Rattle.std.specs.Prelude.{List};
    ghost use Rattle.plan_rule.specs.declared.force.Force.{Force};

    /// A list is that of the wake-ups to come.
    ghost comes: { Self → List Force → Type 0 };

    /// Takes the head of the list and leaves its tail; `None` exactly where the list is empty. It takes no memory.
    fn next(&mut self) -> Option<Force>
        ensures { GivesHead (comes self.old) (comes self.new) result };
}
