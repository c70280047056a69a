ghost use Rattle.std.specs.Prelude.{◌≡◌, ◌<◌, IfOk};
ghost use Rattle.broker_table.specs.Found.{subject_at, row_granted, IsFoundWithin, IsGrantWithin};
ghost use Rattle.broker_rule.specs.Renewing.{asked_or, granted_row, is_deny, new_end, renewal_by_broker, shortened, step_of_row};
ghost use Rattle.broker_table.specs.Slots.{listed_rows};

use crate::slot::slot_in;
use crate::slots::Slots;
use crate::subject::{Found, subject};
use base_moment::{Moment, Span};
use broker_rule::{ApiCall, BrokerRow, Fault, Refusal};
use plan_forest::capped;
use std::alloc::{AllocError, Global};
use vault_http::Request;

/// The slot of a row that is renewed, and its new end.
#[derive(Clone, Copy, Debug)]
pub struct RenewedRow {
    pub place: usize,
    pub end: u64,
}

/// What a renewal request with that fault comes to. The only error is out of memory.
#[tactic(auto, unfolding(broker_rule::specs::Renewing::renewal_by_broker))]
pub(crate) fn renewal(
    alloc: Global,
    slots: &Slots,
    t: Moment,
    call: ApiCall,
    request: &Request,
    fault: Option<Fault>,
) -> Result<Result<RenewedRow, Refusal>, AllocError>
    ensures granted { IfOk result (λ grant. row_granted slots.now grant ≡ renewal_by_broker (listed_rows slots.now) t call request.now fault) }
    ensures within { IfOk result (λ grant. IsGrantWithin slots.now grant) }
{
    if is_deny(fault) {
        return Ok(Err(Refusal::PermissionDenied));
    }
    let found = subject(alloc, slots, call, request)?;
    Ok(granted(slots, t, fault, found))
}

fn is_deny(fault: Option<Fault>) -> bool
    ensures { result ≡ is_deny fault }
{
    match fault {
        None | Some(Fault::Short(_) | Fault::Drop) => false,
        Some(Fault::Deny) => true,
    }
}

/// The new end of a row that was found, where it can be renewed.
fn granted(
    slots: &Slots,
    t: Moment,
    fault: Option<Fault>,
    found: Result<Found, Refusal>,
) -> Result<RenewedRow, Refusal>
    requires { IsFoundWithin slots.now found }
    ensures granted { row_granted slots.now result ≡ granted_row fault t (subject_at slots.now found) }
    ensures within { IsGrantWithin slots.now result }
{
    match found {
        Err(refusal) => Err(refusal),
        Ok(found) => {
            let row = &slot_in(slots.list(), found.place).row;
            if row.renewable {
                Ok(RenewedRow {
                    place: found.place,
                    end: new_end(fault, t, row, found.increment),
                })
            } else {
                Err(Refusal::NotRenewable)
            }
        }
    }
}

/// The end that a renewal at `t` gives a row: no later than its ceiling, and no later than its fault says.
#[tactic(auto, unfolding(broker_rule::specs::Renewing::new_end, broker_rule::specs::Renewing::step_of_row))]
fn new_end(fault: Option<Fault>, t: Moment, row: &BrokerRow, increment: Option<Span>) -> u64
    ensures { result ≡ new_end fault t row.now increment }
{
    let end = capped(row.ceiling, t.plus(step_of(row, increment)));
    shortened(fault, t, end)
}

/// How long after the renewal the row is to end: its period where it is not 0, else what is asked, else its own step.
#[tactic(auto, unfolding(broker_rule::specs::Renewing::step_of_row))]
fn step_of(row: &BrokerRow, increment: Option<Span>) -> Span
    ensures { result ≡ step_of_row row.now increment }
{
    if row.period == 0 {
        asked_or(row.step, increment)
    } else {
        row.period
    }
}

fn asked_or(step: Span, increment: Option<Span>) -> Span
    ensures { result ≡ asked_or step increment }
{
    match increment {
        None => step,
        Some(increment) => { if increment == 0 { step } else { increment } }
    }
}

fn shortened(fault: Option<Fault>, t: Moment, end: u64) -> u64
    ensures { result ≡ shortened fault t end }
{
    match fault {
        Some(Fault::Short(seconds)) => end.min(t.plus(seconds)),
        None | Some(Fault::Drop | Fault::Deny) => end,
    }
}
