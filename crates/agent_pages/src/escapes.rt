//! Texts within double quotes.
ghost use Rattle.std.specs.Prelude.{◌≡◌, ◌++◌, ◌<◌, OnOk};
ghost use Rattle.base_words.specs.Texts.{hex_digit};
ghost use Rattle.agent_pages.specs.Escapes.{json_byte, json_value, label_byte, label_value};

use std::alloc::AllocError;

/// Appends the value of a label.
pub(crate) fn push_label_value(value: &[u8], text: &mut Vec<u8>) -> Result<(), AllocError>
    ensures { OnOk result (text.new.items ≡ text.old.items ++ label_value value.now) }
{
    for byte in value {
        push_label_byte(*byte, text)?;
    }
    Ok(())
}

#[tactic(auto, unfolding(crate::specs::Escapes::label_byte))]
fn push_label_byte(byte: u8, text: &mut Vec<u8>) -> Result<(), AllocError>
    ensures { OnOk result (text.new.items ≡ text.old.items ++ label_byte byte) }
{
    if byte == b'\\' || byte == b'"' {
        text.push(b'\\')?;
        text.push(byte)?;
    } else if byte == b'\n' {
        text.push(b'\\')?;
        text.push(b'n')?;
    } else {
        text.push(byte)?;
    }
    Ok(())
}

/// Appends a string of JSON, without its quotes.
pub(crate) fn push_json_value(value: &[u8], text: &mut Vec<u8>) -> Result<(), AllocError>
    ensures { OnOk result (text.new.items ≡ text.old.items ++ json_value value.now) }
{
    for byte in value {
        push_json_byte(*byte, text)?;
    }
    Ok(())
}

#[tactic(auto, unfolding(crate::specs::Escapes::json_byte))]
fn push_json_byte(byte: u8, text: &mut Vec<u8>) -> Result<(), AllocError>
    ensures { OnOk result (text.new.items ≡ text.old.items ++ json_byte byte) }
{
    if byte == b'\\' || byte == b'"' {
        text.push(b'\\')?;
        text.push(byte)?;
    } else if byte < 32 {
        text.extend_from_slice(b"\\u00")?;
        text.push(hex_digit(byte / 16))?;
        text.push(hex_digit(byte % 16))?;
    } else {
        text.push(byte)?;
    }
    Ok(())
}

/// A digit of base 16.
#[tactic(auto, unfolding(base_words::specs::Texts::hex_digit))]
fn hex_digit(value: u8) -> u8
    requires { value < 16 }
    ensures { result ≡ hex_digit value }
{
    if value < 10 {
        b'0' + value
    } else {
        b'a' - 10 + value
    }
}
