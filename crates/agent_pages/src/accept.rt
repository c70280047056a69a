//! Which text of metrics a request takes.
ghost use Rattle.std.specs.Prelude.{◌≡◌, All, drop, length, map, take, take_while};
ghost use Rattle.std.specs.List.{list_all, list_any};
ghost use Rattle.std.specs.Str.{str_eq_ignore_ascii_case};
ghost use Rattle.httparse.specs.Spans.{IsHeaderWithin, header_bytes};
ghost use Rattle.base_words.specs.Pieces.{pieces};
ghost use Rattle.agent_pages.specs.Accept.{is_open_type, is_space_or_tab, is_zero_byte, is_zero_weight, led, takes_field, takes_fields, takes_range, takes_value};

use base_words::cut;
use httparse::spans::HeaderSpan;

/// Whether a head with these fields takes OpenMetrics' text: some range of a field `Accept` names it, and not with a weight of 0.
pub(crate) fn takes_open_metrics(bytes: &[u8], headers: &[HeaderSpan]) -> bool
    requires { All (IsHeaderWithin (length bytes.now)) headers.now }
    ensures { result ≡ takes_fields (map (header_bytes bytes.now) headers.now) }
{
    for header in headers {
        if takes_field(header.name.of(bytes), header.value.of(bytes)) {
            return true;
        }
    }
    false
}

#[tactic(auto, unfolding(crate::specs::Accept::takes_field))]
fn takes_field(name: &[u8], value: &[u8]) -> bool
    ensures { result ≡ takes_field name.now value.now }
{
    is_word(name, b"accept") && takes_value(value)
}

/// Whether some range between the commas takes it.
#[tactic(auto, unfolding(crate::specs::Accept::takes_value))]
fn takes_value(value: &[u8]) -> bool
    ensures { result ≡ takes_value value.now }
{
    let mut rest = value;
    while let Some((range, ranges)) = cut(rest, b',') {
        if takes_range(range) {
            return true;
        }
        rest = ranges;
    }
    takes_range(rest)
}

/// Whether a range takes it: a type, and parameters after semicolons.
#[tactic(auto, unfolding(crate::specs::Accept::takes_range))]
fn takes_range(range: &[u8]) -> bool
    ensures { result ≡ takes_range range.now }
{
    match cut(range, b';') {
        None => is_open_type(range),
        Some((kind, parameters)) => is_open_type(kind) && !has_zero_weight(parameters),
    }
}

/// Whether some parameter between the semicolons is a weight of 0.
fn has_zero_weight(parameters: &[u8]) -> bool
    ensures { result ≡ list_any is_zero_weight (pieces 59 parameters.now) }
{
    let mut rest = parameters;
    while let Some((parameter, others)) = cut(rest, b';') {
        if is_zero_weight(parameter) {
            return true;
        }
        rest = others;
    }
    is_zero_weight(rest)
}

#[tactic(auto, unfolding(crate::specs::Accept::is_open_type))]
fn is_open_type(text: &[u8]) -> bool
    ensures { result ≡ is_open_type text.now }
{
    let text = led(text);
    is_word(front(text, 28), b"application/openmetrics-text") && are_blank(after(text, 28))
}

/// Whether a parameter is a weight of 0.
#[tactic(auto, unfolding(crate::specs::Accept::is_zero_weight))]
fn is_zero_weight(text: &[u8]) -> bool
    ensures { result ≡ is_zero_weight text.now }
{
    let text = led(text);
    is_word(front(text, 3), b"q=0") && are_zero(after(text, 3))
}

/// What stands after the white space in front.
#[tactic(auto, unfolding(crate::specs::Accept::led))]
fn led(text: &[u8]) -> &[u8]
    ensures { result.now ≡ led text.now }
{
    after(text, blanks(text))
}

fn blanks(text: &[u8]) -> usize
    ensures { result ≡ length (take_while is_space_or_tab text.now) }
{
    text.iter()
        .take_while(|byte| **byte == b' ' || **byte == b'\t')
        .count()
}

fn are_blank(text: &[u8]) -> bool
    ensures { result ≡ list_all is_space_or_tab text.now }
{
    text.iter().all(|byte| *byte == b' ' || *byte == b'\t')
}

fn are_zero(text: &[u8]) -> bool
    ensures { result ≡ list_all is_zero_byte text.now }
{
    text.iter().all(|byte| *byte == b'0' || *byte == b'.' || *byte == b' ' || *byte == b'\t')
}

/// Whether these bytes are that word, letters of either case.
fn is_word(text: &[u8], word: &[u8]) -> bool
    ensures { result ≡ str_eq_ignore_ascii_case text.now word.now }
{
    text.eq_ignore_ascii_case(word)
}

/// The first `n` bytes, or all where they are fewer.
pub(crate) fn front(text: &[u8], n: usize) -> &[u8]
    ensures { result.now ≡ take n text.now }
{
    if text.len() > n { &text[..n] } else { text }
}

/// What stands after the first `n` bytes.
fn after(text: &[u8], n: usize) -> &[u8]
    ensures { result.now ≡ drop n text.now }
{
    &text[n.min(text.len())..]
}
