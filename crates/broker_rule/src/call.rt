/// The four calls of Vault's HTTP API that a broker serves (`auth/token`, "Renew a token (self)" and "Lookup a token
/// (self)"; `sys/leases`, "Renew lease" and "Read lease").
#[derive(Clone, Copy, Debug, PartialEq, Eq)]
pub enum ApiCall {
    RenewSelf,
    RenewLease,
    LookupSelf,
    LookupLease,
}
