ghost use Rattle.std.specs.Prelude.{◌≡◌, false, IfOk, IsUtf8};
ghost use Rattle.serde_json.specs.View.{view};
ghost use Rattle.serde_json.specs.Written.{has_float, compact_text};

use base_moment::Text;
use serde_json::Value;
use std::alloc::{AllocError, Global};

/// The compact text of a value that has no float.
pub(crate) fn written(alloc: Global, value: &Value) -> Result<Text, AllocError>
    ensures { IfOk result (λ t. has_float (view value.now) ≡ false → t ≡ compact_text (view value.now)) }
{
    Ok(Text::from_vec(value.to_vec(alloc)?))
}

/// The text that bytes are.
pub(crate) fn text_of(bytes: &[u8]) -> &str
    requires { IsUtf8 bytes.now }
    ensures { result.now ≡ bytes.now }
{
    std::str::from_utf8(bytes).unwrap()
}
