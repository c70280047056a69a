ghost use Rattle.std.specs.Prelude.{◌≡◌};
ghost use Rattle.std.specs.Char.{is_ascii_digit};
ghost use Rattle.std.specs.List.{list_all};
ghost use Rattle.serde_json.specs.View.{view};
ghost use Rattle.vault_json.specs.Duration.{duration_of_value, seconds_of_text, without_unit};

use base_moment::Span;
use serde_json::Value;

/// The duration that a value of a body is, `None` where it is none: a whole number of seconds up to 4294967295, or a
/// text of such a number's digits with or without a final `s`.
pub(crate) fn duration(value: &Value) -> Option<Span>
    ensures { result ≡ duration_of_value (view value.now) }
{
    match value {
        Value::Number(number) => Span::try_from(number.as_u64()?).ok(),
        Value::String(text) => seconds_of(text.as_str()),
        _ => None,
    }
}

#[tactic(auto, unfolding(crate::specs::Duration::seconds_of_text))]
fn seconds_of(text: &str) -> Option<Span>
    ensures { result ≡ seconds_of_text text.now }
{
    let digits = without_unit(text);
    if is_digits(digits) {
        digits.parse().ok()
    } else {
        None
    }
}

fn without_unit(text: &str) -> &str
    ensures { result.now ≡ without_unit text.now }
{
    text.strip_suffix('s').unwrap_or(text)
}

fn is_digits(text: &str) -> bool
    ensures { result ≡ list_all is_ascii_digit text.now }
{
    text.bytes().all(|byte| byte.is_ascii_digit())
}
