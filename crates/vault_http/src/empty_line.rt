ghost use Rattle.std.specs.Prelude.{◌≡◌, ◌+◌, ◌≤◌, length, take, take_while, IsTrue, false};
ghost use Rattle.std.specs.List.{list_all};
ghost use Rattle.vault_http.specs.EmptyLine.{HasLineBehind, is_line_end_byte};

/// Whether an empty line may end after the first `n` bytes.
#[tactic(auto, using(crate::proofs::EmptyLines::line_after))]
pub(crate) fn brings_empty_line(bytes: &[u8], n: usize) -> bool
    requires { n ≤ length bytes.now }
    ensures { result ≡ false → HasLineBehind n bytes.now → ⊥ }
{
    has_empty_line(&bytes[n.saturating_sub(2)..])
}

/// Whether a line end follows a line feed somewhere. (A carriage return between the two is not looked at.)
fn has_empty_line(bytes: &[u8]) -> bool
    ensures { result ≡ false → HasLineBehind 0 bytes.now → ⊥ }
{
    let mut last = 0;
    for byte in bytes {
        if *byte == b'\n' && last == b'\n' {
            return true;
        }
        if *byte != b'\r' {
            last = *byte;
        }
    }
    false
}

/// How many carriage returns and line feeds stand at the front, of which `blank` are known.
pub(crate) fn blank_front(bytes: &[u8], blank: usize) -> usize
    requires within { blank ≤ length bytes.now }
    requires blank { IsTrue (list_all is_line_end_byte (take blank bytes.now)) }
    ensures within { result ≤ length bytes.now }
    ensures blank { IsTrue (list_all is_line_end_byte (take result bytes.now)) }
{
    blank + blanks(&bytes[blank..])
}

/// How many carriage returns and line feeds stand at the front.
fn blanks(bytes: &[u8]) -> usize
    ensures { result ≡ length (take_while is_line_end_byte bytes.now) }
{
    bytes
        .iter()
        .take_while(|byte| **byte == b'\r' || **byte == b'\n')
        .count()
}
