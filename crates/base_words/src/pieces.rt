ghost use Rattle.std.specs.Prelude.{◌≡◌, ◌<◌, ◌≤◌, IfSome, drop, length};
ghost use Rattle.std.specs.Option.{option_map};
ghost use Rattle.base_words.specs.code.Cutting.{first_place};
ghost use Rattle.base_words.specs.Pieces.{parted, pieces};

/// What stands before the first byte of this value, and what follows it; `None` where there is none.
pub fn cut(text: &[u8], byte: u8) -> Option<(&[u8], &[u8])>
    ensures { pieces byte text.now ≡ parted byte text.now (option_map (λ p. (p.0.now, p.1.now)) result) }
{
    let place = first_place(text, byte)?;
    Some((&text[..place], behind(text, place + 1)))
}

/// The index of the first such byte.
#[tactic(auto, unfolding(crate::specs::code::Cutting::first_place))]
fn first_place(text: &[u8], byte: u8) -> Option<usize>
    ensures value { result ≡ first_place byte text.now }
    ensures within { IfSome result (λ i. i < length text.now) }
{
    text.iter().position(|b| *b == byte)
}

/// What stands from an index on.
fn behind(text: &[u8], at: usize) -> &[u8]
    requires { at ≤ length text.now }
    ensures { result.now ≡ drop at text.now }
{
    &text[at..]
}
