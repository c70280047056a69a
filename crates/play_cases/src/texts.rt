//! The bytes that the text of a step writes: its lines, in which `\xNN` stands for a byte, and a `\` at the end of a line for no line end.
use std::alloc::{AllocError, Global};

/// The bytes that this text writes.
pub fn bytes_of(alloc: Global, written: &[u8]) -> Result<Vec<u8>, AllocError> {
    let mut bytes = Vec::new(alloc);
    let mut left = 0usize;
    for (at, byte) in written.iter().enumerate() {
        if left > 0 {
            left -= 1;
            continue;
        }
        match escape_in(written.get(at..).unwrap_or(&[])) {
            Escape::None => bytes.push(*byte)?,
            Escape::NoLineEnd => left = 1,
            Escape::Byte(byte) => {
                left = 3;
                bytes.push(byte)?;
            }
        }
    }
    Ok(bytes)
}

/// What stands at the front of a text.
enum Escape {
    None,
    NoLineEnd,
    Byte(u8),
}

fn escape_in(text: &[u8]) -> Escape {
    match text {
        [b'\\', b'\n', ..] => Escape::NoLineEnd,
        [b'\\', b'x', high, low, ..] => match (digit(*high), digit(*low)) {
            (Some(high), Some(low)) => Escape::Byte(high.saturating_mul(16).saturating_add(low)),
            _ => Escape::None,
        },
        _ => Escape::None,
    }
}

fn digit(byte: u8) -> Option<u8> {
    match byte {
        b'0'..=b'9' => Some(byte - b'0'),
        b'a'..=b'f' => Some(byte - b'a' + 10),
        _ => None,
    }
}

/// Appends a text that writes these bytes, in whole lines.
pub fn push_text(bytes: &[u8], out: &mut Vec<u8>) -> Result<(), AllocError> {
    let mut is_front = true;
    for (at, byte) in bytes.iter().enumerate() {
        let rest = bytes.get(at..).unwrap_or(&[]);
        if is_plain(rest) && !(is_front && rest.starts_with(b"== ")) {
            out.push(*byte)?;
        } else {
            out.extend_from_slice(&escape_of(*byte))?;
        }
        is_front = *byte == b'\n';
    }
    if !is_front {
        out.extend_from_slice(b"\\\n")?;
    }
    Ok(())
}

/// What stands for a byte.
fn escape_of(byte: u8) -> [u8; 4] {
    [b'\\', b'x', hex_digit(byte / 16), hex_digit(byte % 16)]
}

fn hex_digit(number: u8) -> u8 {
    match number {
        0..=9 => b'0' + number,
        _ => (b'a' - 10).saturating_add(number),
    }
}

/// Whether the first of these bytes can stand for itself.
fn is_plain(bytes: &[u8]) -> bool {
    match bytes {
        [b'\\', b'x' | b'\n', ..] | [b'\\'] => false,
        [byte, ..] => *byte == b'\n' || (*byte >= b' ' && *byte != 0x7f),
        [] => true,
    }
}
