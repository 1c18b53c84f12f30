// Numbers in texts.
ghost use Rattle.std.specs.Prelude.{◌≡◌};
ghost use Rattle.std.specs.Char.{is_ascii_digit};
ghost use Rattle.std.specs.List.{list_all};
ghost use Rattle.pl_base.specs.NumberText as spec;

/// The number that a text is, in decimal digits without sign or leading zero.
pub fn number(text: &[u8]) -> Option<u64>
    ensures { result ≡ spec.number_of text.now }
{
    if !is_numeral(text) {
        return None;
    }
    let Ok(digits) = str::from_utf8(text) else {
        return None;
    };
    digits.parse().ok()
}

/// The same of at most 32 bits.
pub fn number_32(text: &[u8]) -> Option<u32>
    ensures { result ≡ spec.number_32_of text.now }
{
    u32::try_from(number(text)?).ok()
}

fn is_numeral(text: &[u8]) -> bool
    ensures { result ≡ spec.is_numeral text.now }
{
    match text {
        [] => false,
        [b'0', rest @ ..] => rest.is_empty(),
        [_, ..] => all_digits(text),
    }
}

/// Whether the text is of decimal digits alone, as the empty one is.
pub fn all_digits(text: &[u8]) -> bool
    ensures { result ≡ list_all is_ascii_digit text.now }
{
    text.iter().all(|byte| byte.is_ascii_digit())
}
