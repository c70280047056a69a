ghost use Rattle.std.specs.Prelude.{◌≡◌};
ghost use Rattle.vault_inventory.specs.Keys.{key_text};

/// A key of an inventory.
#[derive(Clone, Copy, Debug, PartialEq, Eq)]
pub enum Key {
    SystemMax,
    Margin,
    Token,
    Lease,
    Name,
    Parent,
    Issued,
    End,
    Renewable,
    Increment,
    Period,
    MaxTtl,
    ExplicitMaxTtl,
    Reissued,
    Need,
    Secret,
    SecretFile,
    LeaseId,
    LeaseIdFile,
}

impl Key {
    /// The key as it is written.
    pub fn text(self) -> &'static str
        ensures { result.now ≡ key_text self }
    {
        match self {
            Key::SystemMax => "system_max",
            Key::Margin => "margin",
            Key::Token => "token",
            Key::Lease => "lease",
            Key::Name => "name",
            Key::Parent => "parent",
            Key::Issued => "issued",
            Key::End => "end",
            Key::Renewable => "renewable",
            Key::Increment => "increment",
            Key::Period => "period",
            Key::MaxTtl => "max_ttl",
            Key::ExplicitMaxTtl => "explicit_max_ttl",
            Key::Reissued => "reissued",
            Key::Need => "need",
            Key::Secret => "secret",
            Key::SecretFile => "secret_file",
            Key::LeaseId => "lease_id",
            Key::LeaseIdFile => "lease_id_file",
        }
    }
}
