// Character references in texts and values, after HTML: five by name, all by number.
ghost use Rattle.std.specs.Prelude.{◌≡◌, ◌-◌, ◌≤◌, ◌∷◌, [], not, IfOk, drop};
ghost use Rattle.std.specs.Char.{is_digit};
ghost use Rattle.std.specs.List.{position_or_len};
ghost use Rattle.std.specs.Option.{option_map};
ghost use Rattle.std.specs.String.{string_bytes};
ghost use Rattle.pl_nbread.specs.References as spec;
ghost use Rattle.pl_nbread.specs.References.{Reference, named_at, number_at, reference_at};

use pl_base::NoMemory;
use std::alloc::Global;

/// The text with its references decoded. Any other `&` stands for itself.
pub(crate) fn decoded(alloc: Global, text: &str) -> Result<String, NoMemory>
    ensures { IfOk result (λ string. string_bytes string ≡ spec.decoded text.now) }
{
    let mut string = String::with_capacity(alloc, text.len())?;
    let mut rest = text;
    while let Some((front, behind)) = rest.split_once('&') {
        string.push_str(front)?;
        let (char, more) = reference(behind).unwrap_or(('&', behind));
        string.push(char)?;
        rest = more;
    }
    string.push_str(rest)?;
    Ok(string)
}

// What a reference stands for that a `&` in front of the text begins, and what is behind it.
fn reference(text: &str) -> Option<(char, &str)>
    ensures char { option_map (λ found. found.0) result
        ≡ option_map (λ (r : Reference). r.char) (reference_at (38 ∷ text.now)) }
    ensures behind { option_map (λ found. found.1.now) result
        ≡ option_map (λ (r : Reference). drop (r.size - 1) text.now)
        (reference_at (38 ∷ text.now)) }
{
    match text.strip_prefix('#') {
        Some(number) => numbered(number),
        None => named(text),
    }
}

// The same of a reference by name.
fn named(text: &str) -> Option<(char, &str)>
    ensures char { option_map (λ found. found.0) result
        ≡ option_map (λ (r : Reference). r.char) (named_at (38 ∷ text.now)) }
    ensures behind { option_map (λ found. found.1.now) result
        ≡ option_map (λ (r : Reference). drop (r.size - 1) text.now)
        (named_at (38 ∷ text.now)) }
{
    if let Some(behind) = text.strip_prefix("amp;") {
        return Some(('&', behind));
    }
    if let Some(behind) = text.strip_prefix("lt;") {
        return Some(('<', behind));
    }
    if let Some(behind) = text.strip_prefix("gt;") {
        return Some(('>', behind));
    }
    if let Some(behind) = text.strip_prefix("quot;") {
        return Some(('"', behind));
    }
    let behind = text.strip_prefix("apos;")?;
    Some(('\'', behind))
}

// The same of a reference by number, of what stands behind its `&#`.
fn numbered(text: &str) -> Option<(char, &str)>
    ensures char { option_map (λ found. found.0) result
        ≡ option_map (λ (r : Reference). r.char) (reference_at (38 ∷ 35 ∷ text.now)) }
    ensures behind { option_map (λ found. found.1.now) result
        ≡ option_map (λ (r : Reference). drop (r.size - 1) (35 ∷ text.now))
        (reference_at (38 ∷ 35 ∷ text.now)) }
{
    match text.strip_prefix('x') {
        Some(digits) => by_digits(digits, 16),
        None => by_digits(text, 10),
    }
}

// The character whose number the digits at the front are, up to a `;`, and what is behind that.
fn by_digits(text: &str, radix: u32) -> Option<(char, &str)>
    requires low { 2 ≤ radix }
    requires high { radix ≤ 36 }
    ensures char { option_map (λ found. found.0) result
        ≡ option_map (λ (r : Reference). r.char)
        (number_at [] radix (λ b. is_digit b radix) text.now) }
    ensures behind { option_map (λ found. found.1.now) result
        ≡ option_map (λ (r : Reference). drop r.size text.now)
        (number_at [] radix (λ b. is_digit b radix) text.now) }
{
    let (digits, behind) = text.split_at(digit_count(text, radix));
    let behind = behind.strip_prefix(';')?;
    let number = u32::from_str_radix(digits, radix).ok()?;
    Some((char::from_u32(number)?, behind))
}

// How many bytes at the front of a text are digits.
fn digit_count(text: &str, radix: u32) -> usize
    requires low { 2 ≤ radix }
    requires high { radix ≤ 36 }
    ensures { result ≡ position_or_len (λ b. not (is_digit b radix)) text.now }
{
    for (count, byte) in text.as_bytes().iter().enumerate() {
        if !char::from(*byte).is_digit(radix) {
            return count;
        }
    }
    text.len()
}
