ghost use Rattle.std.specs.Prelude.{◌≡◌, Some, option_map, false};
ghost use Rattle.serde_json.specs.Find.{as_bool, as_str};
ghost use Rattle.serde_json.specs.View.{view};
ghost use Rattle.vault_json.specs.Answer.{GivesOrReplyFault};
ghost use Rattle.vault_json.specs.Duration.{duration_of_value};
ghost use Rattle.vault_json.specs.Field.{key_of, present, member_of, required, optional, object_of, timestamp_of, date_in_text};

use crate::duration::duration;
use crate::fault::ReplyFault;
use base_moment::{Moment, Span, Text, read_rfc3339};
use serde_json::Value;
use std::alloc::Global;
use std::fmt;

/// A field that this crate reads or writes (Vault, HTTP API `auth/token` and `sys/leases`).
#[derive(Clone, Copy, Debug, PartialEq, Eq)]
pub enum Field {
    /// `auth`
    Auth,
    /// `creation_time`
    CreationTime,
    /// `data`
    Data,
    /// `expire_time`
    ExpireTime,
    /// `explicit_max_ttl`
    ExplicitMaxTtl,
    /// `id`
    Id,
    /// `increment`
    Increment,
    /// `issue_time`
    IssueTime,
    /// `lease_duration`
    LeaseDuration,
    /// `lease_id`
    LeaseId,
    /// `orphan`
    Orphan,
    /// `period`
    Period,
    /// `renewable`
    Renewable,
    /// `ttl`
    Ttl,
}

impl Field {
    /// The field's key in an object.
    #[tactic(auto, unfolding(crate::specs::Field::key_of))]
    pub fn key(self) -> &'static str
        ensures { result.now ≡ key_of self }
    {
        match self {
            Field::Auth => "auth",
            Field::CreationTime => "creation_time",
            Field::Data => "data",
            Field::ExpireTime => "expire_time",
            Field::ExplicitMaxTtl => "explicit_max_ttl",
            Field::Id => "id",
            Field::Increment => "increment",
            Field::IssueTime => "issue_time",
            Field::LeaseDuration => "lease_duration",
            Field::LeaseId => "lease_id",
            Field::Orphan => "orphan",
            Field::Period => "period",
            Field::Renewable => "renewable",
            Field::Ttl => "ttl",
        }
    }
}

impl fmt::Display for Field {
    fn fmt<W: fmt::Write>(&self, f: &mut fmt::Formatter<W>) -> fmt::Result {
        f.write_str(self.key())
    }
}

/// The value of a field of an object, `None` where it is absent or null.
#[tactic(auto, unfolding(crate::specs::Field::member_of))]
pub(crate) fn member(object: &Value, field: Field) -> Option<&Value>
    ensures { option_map (λ v. view v.now) result ≡ member_of field (view object.now) }
{
    present(object.get(field.key()))
}

/// What is there, null being as good as absent.
pub(crate) fn present(value: Option<&Value>) -> Option<&Value>
    ensures { option_map (λ v. view v.now) result ≡ present (option_map (λ v. view v.now) value.entry) }
{
    match value {
        Some(Value::Null) | None => None,
        Some(value) => Some(value),
    }
}

/// An object that must be there.
#[tactic(auto, unfolding(crate::specs::Field::required))]
pub(crate) fn object(object: &Value, field: Field) -> Result<&Value, ReplyFault>
    ensures { GivesOrReplyFault (λ v. view v.now) result (required field object_of (view object.now)) }
{
    match member(object, field) {
        None => Err(ReplyFault::Missing(field)),
        Some(value) if value.is_object() => Ok(value),
        Some(_) => Err(ReplyFault::BadField(field)),
    }
}

/// An object, in whose place `object` itself stands where it is absent.
#[tactic(auto, unfolding(crate::specs::Field::optional))]
pub(crate) fn object_or_itself(object: &Value, field: Field) -> Result<&Value, ReplyFault>
    ensures { GivesOrReplyFault (λ v. view v.now) result (optional field (view object.now) object_of (view object.now)) }
{
    match member(object, field) {
        None => Ok(object),
        Some(value) if value.is_object() => Ok(value),
        Some(_) => Err(ReplyFault::BadField(field)),
    }
}

/// A duration that must be there.
#[tactic(auto, unfolding(crate::specs::Field::required))]
pub(crate) fn span(object: &Value, field: Field) -> Result<Span, ReplyFault>
    ensures { result ≡ required field duration_of_value (view object.now) }
{
    match member(object, field) {
        None => Err(ReplyFault::Missing(field)),
        Some(value) => duration(value).ok_or(ReplyFault::BadField(field)),
    }
}

/// A duration that is 0 where it is absent.
#[tactic(auto, unfolding(crate::specs::Field::optional))]
pub(crate) fn span_or_zero(object: &Value, field: Field) -> Result<Span, ReplyFault>
    ensures { result ≡ optional field 0 duration_of_value (view object.now) }
{
    match member(object, field) {
        None => Ok(0),
        Some(value) => duration(value).ok_or(ReplyFault::BadField(field)),
    }
}

/// A boolean that is false where it is absent.
#[tactic(auto, unfolding(crate::specs::Field::optional))]
pub(crate) fn flag(object: &Value, field: Field) -> Result<bool, ReplyFault>
    ensures { result ≡ optional field false as_bool (view object.now) }
{
    match member(object, field) {
        None => Ok(false),
        Some(value) => value.as_bool().ok_or(ReplyFault::BadField(field)),
    }
}

/// A moment, as a whole number of seconds, that must be there.
#[tactic(auto, unfolding(crate::specs::Field::required))]
pub(crate) fn timestamp(object: &Value, field: Field) -> Result<Moment, ReplyFault>
    ensures { result ≡ required field timestamp_of (view object.now) }
{
    match member(object, field) {
        None => Err(ReplyFault::Missing(field)),
        Some(value) => value
            .as_u64()
            .and_then(Moment::new)
            .ok_or(ReplyFault::BadField(field)),
    }
}

/// A moment, as a text by RFC 3339, that must be there.
#[tactic(auto, unfolding(crate::specs::Field::required))]
pub(crate) fn date(object: &Value, field: Field) -> Result<Moment, ReplyFault>
    ensures { result ≡ required field date_in_text (view object.now) }
{
    match member(object, field) {
        None => Err(ReplyFault::Missing(field)),
        Some(value) => match value.as_str() {
            None => Err(ReplyFault::BadField(field)),
            Some(text) => read_rfc3339(text).ok().ok_or(ReplyFault::BadField(field)),
        },
    }
}

/// A text that must be there. Lack of memory is told apart.
#[tactic(auto, unfolding(crate::specs::Field::required))]
pub(crate) fn text(alloc: Global, object: &Value, field: Field) -> Result<Text, ReplyFault>
    ensures { GivesOrReplyFault (λ t. t) result (required field as_str (view object.now)) }
{
    match member(object, field) {
        None => Err(ReplyFault::Missing(field)),
        Some(value) => match value.as_str() {
            None => Err(ReplyFault::BadField(field)),
            Some(text) => Ok(Text::of(alloc, text.as_bytes())?),
        },
    }
}
