use base_moment::Span;

/// The most bytes of an inventory's text: 1 MiB.
pub const MOST_INVENTORY: usize = 1_048_576;

/// The greatest duration, in seconds: the greatest [`Span`].
pub const SPAN_MAX: Span = 4294967295;

/// The system's maximum TTL where the inventory names none, in seconds: 32 days.
///
/// Source: Vault, "Lease, renew, and revoke" (maximum TTL).
pub const SYSTEM_MAX: Span = 2764800;

/// The most bytes of a credential.
pub const CREDENTIAL_MAX: usize = 256;

/// The most bytes of a path.
pub const PATH_MAX: usize = 4096;

/// What is asked for where neither an increment nor a period is written, in seconds: an hour.
pub const STEP_ABSENT: Span = 3600;
