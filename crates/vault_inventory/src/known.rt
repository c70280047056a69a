ghost use Rattle.std.specs.Prelude.{◌≡◌, Some, None, string_bytes};
ghost use Rattle.std.specs.List.{list_all};
ghost use Rattle.std.specs.BTreeMap.{keys as map_keys};
ghost use Rattle.toml.specs.View.{table_view};
ghost use Rattle.vault_inventory.specs.Keys.{all_keys, is_one_of, lease_keys, token_keys, top_keys};
ghost use Rattle.vault_inventory.specs.Languages.{full};
ghost use Rattle.vault_inventory.specs.Values.{only};

use crate::fault::InvFault;
use crate::key::Key;
use toml::Table;

/// Refuses the top level that has another key than those of the top level.
pub fn only_top_keys(table: &Table) -> Result<(), InvFault>
    ensures { result ≡ only top_keys None (table_view table.now) }
{
    only(
        table,
        &[Key::SystemMax, Key::Margin, Key::Token, Key::Lease],
        None,
    )
}

/// Refuses a token that has another key than those of a token.
pub fn only_token_keys(table: &Table, index: u32) -> Result<(), InvFault>
    ensures { result ≡ only (token_keys full) (Some index) (table_view table.now) }
{
    only(
        table,
        &[
            Key::Name,
            Key::Parent,
            Key::Issued,
            Key::End,
            Key::Renewable,
            Key::Increment,
            Key::Period,
            Key::MaxTtl,
            Key::ExplicitMaxTtl,
            Key::Need,
            Key::Secret,
            Key::SecretFile,
            Key::Reissued,
        ],
        Some(index),
    )
}

/// Refuses a lease that has another key than those of a lease.
pub fn only_lease_keys(table: &Table, index: u32) -> Result<(), InvFault>
    ensures { result ≡ only (lease_keys full) (Some index) (table_view table.now) }
{
    only(
        table,
        &[
            Key::Name,
            Key::Token,
            Key::Issued,
            Key::End,
            Key::Renewable,
            Key::Increment,
            Key::MaxTtl,
            Key::Need,
            Key::LeaseId,
            Key::LeaseIdFile,
            Key::Reissued,
        ],
        Some(index),
    )
}

// Refuses a table that has another key than these.
fn only(table: &Table, keys: &[Key], place: Option<u32>) -> Result<(), InvFault>
    ensures { result ≡ only keys.now place (table_view table.now) }
{
    if has_only(table, keys) {
        Ok(())
    } else {
        Err(InvFault::UnknownKey(place))
    }
}

fn has_only(table: &Table, keys: &[Key]) -> bool
    ensures { result ≡ all_keys (is_one_of keys.now) (table_view table.now) }
{
    are_known(table, keys)
}

fn are_known(table: &Table, keys: &[Key]) -> bool
    ensures { result ≡ list_all (λ k. is_one_of keys.now (string_bytes k)) (map_keys table.now) }
{
    table.keys().all(|key| is_one_of(keys, key.as_str()))
}

// Whether this is the text of one of the keys.
fn is_one_of(keys: &[Key], text: &str) -> bool
    ensures { result ≡ is_one_of keys.now text.now }
{
    keys.iter().any(|key| key.text() == text)
}
