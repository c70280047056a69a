ghost use Rattle.std.specs.Prelude.{◌≡◌, IfOk};
ghost use Rattle.broker_table.specs.Found.{NamesText};
ghost use Rattle.broker_rule.specs.Step.{IsReplyBody, seconds_to};

use base_moment::{Moment, Span, Text};
use broker_rule::{ApiCall, BrokerRow};
use std::alloc::{AllocError, Global};
use vault_inventory::SPAN_MAX;
use vault_json::{LookedToken, looked_lease, looked_self, renewed_lease, renewed_self};

/// The body of the reply that tells a call of a row with that end. The only error is out of memory.
#[tactic(auto, unfolding(broker_rule::specs::Step::IsReplyBody))]
pub(crate) fn body_of(
    alloc: Global,
    call: ApiCall,
    row: &BrokerRow,
    end: u64,
    t: Moment,
) -> Result<Text, AllocError>
    requires { NamesText call row.now.credential }
    ensures { IfOk result (λ body. IsReplyBody call (record row.now { end = end }) t body) }
{
    let seconds = seconds_to(end, t);
    match call {
        ApiCall::RenewSelf => renewed_self(alloc, seconds, row.renewable),
        ApiCall::RenewLease => renewed_lease(alloc, row.credential.list(), seconds, row.renewable),
        ApiCall::LookupSelf => looked_self(
            alloc,
            LookedToken {
                ttl: seconds,
                created: row.issued,
                explicit_max: row.explicit_max,
                orphan: row.parent.is_none(),
                renewable: row.renewable,
                period: row.period,
            },
        ),
        ApiCall::LookupLease => looked_lease(
            alloc,
            row.credential.list(),
            row.issued,
            row.renewable,
            seconds,
        ),
    }
}

/// The seconds from a moment to an end, 0 where it has passed, at most the greatest duration.
fn seconds_to(end: u64, t: Moment) -> Span
    ensures { result ≡ seconds_to end t }
{
    end.saturating_sub(t.get()).min(SPAN_MAX as u64) as u32
}
