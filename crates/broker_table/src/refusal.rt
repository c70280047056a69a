ghost use Rattle.std.specs.Prelude.{◌≡◌};
ghost use Rattle.broker_rule.specs.Request.{status_of_refusal, text_of_refusal};

use broker_rule::Refusal;

/// The status of the reply.
pub(crate) fn status_of(refusal: Refusal) -> u16
    ensures { result ≡ status_of_refusal refusal }
{
    match refusal {
        Refusal::UnsupportedPath => 404,
        Refusal::UnsupportedMethod => 405,
        Refusal::PermissionDenied => 403,
        Refusal::BadRequest | Refusal::UnknownLease | Refusal::NotRenewable => 400,
    }
}

/// The text of the error.
#[tactic(auto, unfolding(broker_rule::specs::Request::text_of_refusal))]
pub(crate) fn text_of(refusal: Refusal) -> &'static str
    ensures { result.now ≡ text_of_refusal refusal }
{
    match refusal {
        Refusal::UnsupportedPath => "unsupported path",
        Refusal::UnsupportedMethod => "unsupported method",
        Refusal::PermissionDenied => "permission denied",
        Refusal::BadRequest => "bad request",
        Refusal::UnknownLease => "unknown lease",
        Refusal::NotRenewable => "not renewable",
    }
}
