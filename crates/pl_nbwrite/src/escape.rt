// Texts as they stand in a file: their special characters as references.
ghost use Rattle.std.specs.Prelude.{◌≡◌, ◌<◌, [], ◌∷◌, ◌++◌, MatchOption, OnOk, encode_utf8};
ghost use Rattle.std.specs.String.{string_bytes};
ghost use Rattle.pl_nbwrite.specs.BookmarkText.{escape, escaped, title_end, title_text};

use pl_base::NoMemory;

/// A space where a reader would cut it.
const EDGE_SPACE: &str = "&#32;";

/// Appends a title. A space at one of its ends is a reference too.
pub(crate) fn push_title(file: &mut String, title: &str) -> Result<(), NoMemory>
    ensures { OnOk result (string_bytes file.new ≡ string_bytes file.old ++ title_text title.now) }
{
    let Some(behind) = title.strip_prefix(' ') else {
        return push_title_end(file, title);
    };
    file.push_str(EDGE_SPACE)?;
    push_title_end(file, behind)
}

// Appends a title behind a space at its front.
fn push_title_end(file: &mut String, text: &str) -> Result<(), NoMemory>
    ensures { OnOk result (string_bytes file.new ≡ string_bytes file.old ++ title_end text.now) }
{
    let Some(front) = text.strip_suffix(' ') else {
        return push_escaped(file, text);
    };
    push_escaped(file, front)?;
    file.push_str(EDGE_SPACE)?;
    Ok(())
}

/// Appends a text.
pub(crate) fn push_escaped(file: &mut String, text: &str) -> Result<(), NoMemory>
    ensures { OnOk result (string_bytes file.new ≡ string_bytes file.old ++ escaped text.now) }
{
    for c in text.chars() {
        push_char(file, c)?;
    }
    Ok(())
}

// Appends a character.
fn push_char(file: &mut String, c: char) -> Result<(), NoMemory>
    ensures { OnOk result (string_bytes file.new
        ≡ string_bytes file.old ++ escaped (encode_utf8 c)) }
{
    if let Some(reference) = reference(c) {
        file.push_str(reference)?;
    } else {
        file.push(c)?;
    }
    Ok(())
}

// The reference that stands for a character, if it may not stand for itself.
fn reference(c: char) -> Option<&'static str>
    ensures { MatchOption result (escape c ≡ c ∷ []) (λ text. (c < 128) × (text.now ≡ escape c)) }
{
    match c {
        '&' => Some("&amp;"),
        '<' => Some("&lt;"),
        '>' => Some("&gt;"),
        '"' => Some("&quot;"),
        '\'' => Some("&#39;"),
        '\t' => Some("&#9;"),
        '\n' => Some("&#10;"),
        '\x0c' => Some("&#12;"),
        '\r' => Some("&#13;"),
        _ => None,
    }
}
