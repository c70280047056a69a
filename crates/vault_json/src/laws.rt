//! What one side writes, the other reads: theorems of the definitions, which no body's own answer shows.
ghost use Rattle.vault_json.specs.Laws.{DurationsAreRead, RenewedSelfIsRead, RenewedLeaseIsRead, LookedSelfIsRead, LookedLeaseIsRead, RenewBodyIsRead, LeaseBodyIsRead, LookupBodyIsRead};

/// A duration is read from a value exactly where the value writes it: as a whole number of seconds up to 4294967295, or
/// as a text of such a number's digits with or without a final `s`.
pub fn durations_are_read()
    ensures { DurationsAreRead }
{}

/// What `renewed_self` writes, `read_renew_self` answers.
pub fn renewed_self_is_read()
    ensures { RenewedSelfIsRead }
{}

/// What `renewed_lease` writes of an id that is UTF-8, `read_renew_lease` answers.
pub fn renewed_lease_is_read()
    ensures { RenewedLeaseIsRead }
{}

/// What `looked_self` writes, `read_lookup_self` answers.
pub fn looked_self_is_read()
    ensures { LookedSelfIsRead }
{}

/// What `looked_lease` writes of an id that is UTF-8, `read_lookup_lease` answers.
pub fn looked_lease_is_read()
    ensures { LookedLeaseIsRead }
{
    base_moment::dates_are_read_back();
}

/// The step that `renew_body` writes, `read_increment` answers.
pub fn renew_body_is_read()
    ensures { RenewBodyIsRead }
{}

/// The id and the step that `lease_body` writes, `read_lease_id` and `read_increment` answer.
pub fn lease_body_is_read()
    ensures { LeaseBodyIsRead }
{}

/// The id that `lookup_body` writes, `read_lease_id` answers.
pub fn lookup_body_is_read()
    ensures { LookupBodyIsRead }
{}
