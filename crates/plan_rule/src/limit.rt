ghost use Rattle.std.specs.Prelude.{◌≡◌};
ghost use Rattle.plan_rule.specs.declared.limit.TheConstants.{LIMIT};

/// The most wake-ups of a plan, and of a certificate.
pub const LIMIT: u64 = 10_000_000;

/// The limit as a number. It does nothing.
pub fn limit_law()
    ensures { LIMIT ≡ 10000000 }
{}
