//! Cuts of a text, and the blanks around what stands between them.
ghost use Rattle.std.specs.Prelude.{◌≡◌, ◌==◌, true, reverse};
ghost use Rattle.std.specs.List.{after_first, before_first};
ghost use Rattle.px_message.specs.Fields.{trim_blanks, trim_start};
ghost use Rattle.px_message.specs.Value.{is_value};

/// What stands in front of the first such byte, or all, and what stands behind it, or nothing.
#[tactic(auto, using(crate::proofs::ValueLemmas::value_take, crate::proofs::ValueLemmas::value_drop))]
pub fn cut(text: &[u8], at: u8) -> (&[u8], &[u8])
    ensures front { result.0.now ≡ before_first (λ b. b == at) text.now }
    ensures behind { result.1.now ≡ after_first (λ b. b == at) text.now }
    ensures front_valid { is_value text.now ≡ true → is_value result.0.now ≡ true }
    ensures behind_valid { is_value text.now ≡ true → is_value result.1.now ≡ true }
{
    match text.iter().position(|b| *b == at) {
        Some(i) => (&text[..i], &text[i + 1..]),
        None => (text, &[]),
    }
}

/// The text without the spaces and tabs at its ends.
#[tactic(auto, using(crate::proofs::ValueLemmas::value_trim))]
pub fn trim_blanks(text: &[u8]) -> &[u8]
    ensures trimmed { result.now ≡ trim_blanks text.now }
    ensures valid { is_value text.now ≡ true → is_value result.now ≡ true }
{
    trim_end(trim_start(text))
}

fn trim_start(text: &[u8]) -> &[u8]
    ensures { result.now ≡ trim_start text.now }
{
    let mut rest = text;
    while let [b' ' | b'\t', more @ ..] = rest {
        rest = more;
    }
    rest
}

fn trim_end(text: &[u8]) -> &[u8]
    ensures { result.now ≡ reverse (trim_start (reverse text.now)) }
{
    let mut rest = text;
    while let [more @ .., b' ' | b'\t'] = rest {
        rest = more;
    }
    rest
}
