/// Why a request is refused.
#[derive(Clone, Copy, Debug, PartialEq, Eq)]
pub enum Refusal {
    /// No call has that path: 404.
    UnsupportedPath,
    /// The method is not listed for the call: 405.
    UnsupportedMethod,
    /// No token, or none that is listed, or the lease of another token, or a fault: 403.
    PermissionDenied,
    /// The body is not as the call wants it: 400.
    BadRequest,
    /// No lease of that id is listed: 400.
    UnknownLease,
    /// The token or lease cannot be renewed: 400.
    NotRenewable,
}
