ghost use Rattle.std.specs.Prelude.{◌≡◌, IfOk, OnOk, OnErr, Ok};
ghost use Rattle.broker_table.specs.Found.{row_granted, IsGrantWithin, GrantNamesText};
ghost use Rattle.broker_rule.specs.Renewing.{rows_after};
ghost use Rattle.broker_rule.specs.Request.{call_of};
ghost use Rattle.broker_table.specs.Slots.{listed_rows};
ghost use Rattle.broker_rule.specs.Step.{Refuses, SaysAnswer, by_call, is_drop, lookup_answer, renewal_answer, renewal_outcome};
ghost use Rattle.broker_rule.specs.Subject.{subject};
ghost use Rattle.broker_rule.specs.declared.served.Served.TheVariants as served;

use crate::body::body_of;
use crate::call::{allows, call_of, is_renewal};
use crate::grant::{RenewedRow, renewal};
use crate::refusal::{status_of, text_of};
use crate::slot::slot_in;
use crate::slots::Slots;
use crate::subject::subject;
use crate::table::Table;
use base_moment::{Moment, Text};
use broker_rule::{ApiCall, Fault, Refusal, Served};
use std::alloc::{AllocError, Global};
use vault_http::{Reply, Request};
use vault_json::errors;

impl Table {
    /// Answers a request by what was swept before. Where memory is wanting nothing is changed.
    pub(crate) fn answer(&mut self, t: Moment, request: &Request) -> Result<Served, AllocError>
        ensures says { IfOk result (λ served. SaysAnswer t (by_call self.old t request.now (call_of request.now.path)).answer served) }
        ensures table { OnOk result (self.new ≡ (by_call self.old t request.now (call_of request.now.path)).table) }
        ensures unchanged { OnErr result (self.new ≡ self.old) }
    {
        let alloc = self.slots.allocator();
        let Some(call) = call_of(request.path.list()) else {
            return refuse(alloc, Refusal::UnsupportedPath);
        };
        if !allows(call, &request.method) {
            return refuse(alloc, Refusal::UnsupportedMethod);
        }
        if is_renewal(call) {
            self.renew(t, call, request)
        } else {
            look_up(alloc, &self.slots, t, call, request)
        }
    }

    /// Serves a renewal request: it is counted, and its fault is used.
    #[tactic(auto, unfolding(broker_rule::specs::Step::renewal_outcome))]
    fn renew(&mut self, t: Moment, call: ApiCall, request: &Request) -> Result<Served, AllocError>
        ensures says { IfOk result (λ served. SaysAnswer t (renewal_outcome self.old t call request.now).answer served) }
        ensures table { OnOk result (self.new ≡ (renewal_outcome self.old t call request.now).table) }
        ensures unchanged { OnErr result (self.new ≡ self.old) }
    {
        let alloc = self.slots.allocator();
        let fault = self.faults.next();
        let grant = renewal(alloc, &self.slots, t, call, request, fault)?;
        let served = renewed(alloc, &self.slots, t, call, fault, grant)?;
        // Nothing wants memory from here on, so a request that is refused for want of it was not counted.
        self.faults.count_next();
        settle(&mut self.slots, grant);
        Ok(served)
    }
}

/// The reply that refuses a request.
pub(crate) fn refuse(alloc: Global, refusal: Refusal) -> Result<Served, AllocError>
    ensures { IfOk result (λ served. Refuses refusal served) }
{
    Ok(Served::Reply(Reply {
        status: status_of(refusal),
        body: errors(alloc, text_of(refusal))?,
    }))
}

/// The reply to a lookup.
fn look_up(
    alloc: Global,
    slots: &Slots,
    t: Moment,
    call: ApiCall,
    request: &Request,
) -> Result<Served, AllocError>
    ensures { IfOk result (λ served. SaysAnswer t (lookup_answer call (subject (listed_rows slots.now) call request.now)) served) }
{
    match subject(alloc, slots, call, request)? {
        Err(refusal) => refuse(alloc, refusal),
        Ok(found) => {
            let row = &slot_in(slots.list(), found.place).row;
            reply(body_of(alloc, call, row, row.end, t)?)
        }
    }
}

/// The reply to a renewal request.
fn renewed(
    alloc: Global,
    slots: &Slots,
    t: Moment,
    call: ApiCall,
    fault: Option<Fault>,
    grant: Result<RenewedRow, Refusal>,
) -> Result<Served, AllocError>
    requires within { IsGrantWithin slots.now grant }
    requires text { GrantNamesText call (row_granted slots.now grant) }
    ensures { IfOk result (λ served. SaysAnswer t (renewal_answer call fault (row_granted slots.now grant)) served) }
{
    match grant {
        Err(refusal) => refuse(alloc, refusal),
        Ok(grant) => {
            if is_drop(fault) {
                return Ok(Served::Dropped);
            }
            let row = &slot_in(slots.list(), grant.place).row;
            reply(body_of(alloc, call, row, grant.end, t)?)
        }
    }
}

fn reply(body: Text) -> Result<Served, AllocError>
    ensures { result ≡ Ok (served.Reply (record { status = 200; body = body })) }
{
    Ok(Served::Reply(Reply { status: 200, body }))
}

fn is_drop(fault: Option<Fault>) -> bool
    ensures { result ≡ is_drop fault }
{
    match fault {
        None | Some(Fault::Short(_) | Fault::Deny) => false,
        Some(Fault::Drop) => true,
    }
}

/// Gives a row that is renewed its new end.
fn settle(slots: &mut Slots, grant: Result<RenewedRow, Refusal>)
    requires { IsGrantWithin slots.old grant }
    ensures { listed_rows slots.new ≡ rows_after (listed_rows slots.old) (row_granted slots.old grant) }
{
    if let Ok(grant) = grant {
        slots.set_end(grant.place, grant.end);
    }
}
