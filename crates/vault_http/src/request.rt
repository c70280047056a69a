ghost use Rattle.std.specs.Prelude.{◌≡◌, ℕ, ◌<◌, ◌≤◌, List, ◌∷◌, IsTrue, length};
ghost use Rattle.std.specs.List.{list_all};
ghost use Rattle.vault_http.specs.RoundTripRequest.{IsSentToken, IsWritable, is_path_byte, is_sent_method, is_token_value_byte};

use base_moment::Text;
use http::Method;
use std::fmt;

/// A request to the broker.
#[derive(Drop)]
pub struct Request {
    /// The method, as `GET` or `POST`.
    pub method: Method,
    /// The path, which begins with a slash.
    pub path: Text,
    /// The value of the field `X-Vault-Token`, if there is one.
    pub token: Option<Text>,
    /// The body, which is empty with `GET`.
    pub body: Text,
    /// The broker's port, which is written into the field `Host` alone: a request that was read has port 0.
    pub port: u16,
}

impl fmt::Debug for Request {
    /// Shows all but the token and the body, in which ids of leases stand: they are secret.
    fn fmt<W: fmt::Write>(&self, f: &mut fmt::Formatter<W>) -> fmt::Result {
        f.debug_struct("Request")
            .field("method", &self.method)
            .field("path", &self.path)
            .field("port", &self.port)
            .finish_non_exhaustive()
    }
}

impl Request {
    /// Whether [`crate::write_request`] may be asked to write it.
    #[tactic(auto, using(crate::proofs::Writable::path_passes))]
    pub fn is_writable(&self) -> bool
        ensures only { IsTrue result → IsWritable self.now }
        ensures each { IsWritable self.now → IsTrue result }
    {
        is_method(self.method.as_str())
            && is_path(self.path.list())
            && is_token(&self.token)
            && (self.method.as_str() != "GET" || self.body.list().is_empty())
    }
}

/// Whether requests are written with this method.
fn is_method(method: &str) -> bool
    ensures { result ≡ is_sent_method method.now }
{
    method == "GET" || method == "POST" || method == "PUT"
}

/// Whether requests are written with this path.
fn is_path(path: &[u8]) -> bool
    ensures slash { IsTrue result → (rest : List ℕ) × (path.now ≡ 47 ∷ rest) }
    ensures short { IsTrue result → length path.now ≤ 256 }
    ensures bytes { IsTrue result → IsTrue (list_all is_path_byte path.now) }
    ensures each { (rest : List ℕ) → path.now ≡ 47 ∷ rest → length path.now ≤ 256 → IsTrue (list_all is_path_byte path.now) → IsTrue result }
{
    match path {
        [b'/', ..] => path.len() <= 256 && are_path_bytes(path),
        _ => false,
    }
}

/// Whether each byte may stand in a path.
fn are_path_bytes(path: &[u8]) -> bool
    ensures { result ≡ list_all is_path_byte path.now }
{
    path.iter().all(|b| b.is_ascii_alphanumeric()
        || *b == b'/'
        || *b == b'-'
        || *b == b'_'
        || *b == b'.')
}

/// Whether requests are written with this token, if there is one.
#[tactic(auto, using(crate::proofs::Writable::token_passes))]
fn is_token(token: &Option<Text>) -> bool
    ensures only { IsTrue result → IsSentToken token.now }
    ensures each { IsSentToken token.now → IsTrue result }
{
    match token {
        None => true,
        Some(token) => {
            !token.list().is_empty() && token.list().len() <= 256 && are_token_bytes(token.list())
        }
    }
}

/// Whether each byte may stand in a token.
fn are_token_bytes(token: &[u8]) -> bool
    ensures { result ≡ list_all is_token_value_byte token.now }
{
    token.iter().all(|b| *b >= 0x21 && *b <= 0x7e)
}
