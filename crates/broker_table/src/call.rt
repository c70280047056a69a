ghost use Rattle.std.specs.Prelude.{◌≡◌};
ghost use Rattle.vault_http.specs.Written.{is_get};
ghost use Rattle.broker_rule.specs.Request.{call_of, is_write, allows, is_renewal};

use broker_rule::ApiCall;
use http::Method;

/// The call of a path, `None` where there is none.
#[tactic(auto, unfolding(broker_rule::specs::Request::call_of))]
pub(crate) fn call_of(path: &[u8]) -> Option<ApiCall>
    ensures { result ≡ call_of path.now }
{
    if path == b"/v1/auth/token/renew-self".as_slice() {
        return Some(ApiCall::RenewSelf);
    }
    if path == b"/v1/sys/leases/renew".as_slice() {
        return Some(ApiCall::RenewLease);
    }
    if path == b"/v1/auth/token/lookup-self".as_slice() {
        return Some(ApiCall::LookupSelf);
    }
    if path == b"/v1/sys/leases/lookup".as_slice() {
        return Some(ApiCall::LookupLease);
    }
    None
}

/// Whether the method is listed for the call: GET for a token's lookup, POST and PUT for the others.
pub(crate) fn allows(call: ApiCall, method: &Method) -> bool
    ensures { result ≡ allows call method.now }
{
    match call {
        ApiCall::LookupSelf => is_get(method),
        ApiCall::RenewSelf | ApiCall::RenewLease | ApiCall::LookupLease => is_write(method),
    }
}

/// Whether the call asks for a renewal.
pub(crate) fn is_renewal(call: ApiCall) -> bool
    ensures { result ≡ is_renewal call }
{
    match call {
        ApiCall::RenewSelf | ApiCall::RenewLease => true,
        ApiCall::LookupSelf | ApiCall::LookupLease => false,
    }
}

fn is_get(method: &Method) -> bool
    ensures { result ≡ is_get method.now }
{
    method.as_str().as_bytes() == b"GET".as_slice()
}

#[tactic(auto, unfolding(broker_rule::specs::Request::is_write))]
fn is_write(method: &Method) -> bool
    ensures { result ≡ is_write method.now }
{
    (method.as_str().as_bytes() == b"POST".as_slice())
        | (method.as_str().as_bytes() == b"PUT".as_slice())
}
