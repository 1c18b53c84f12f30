// What a text consists of: tags that say something about the tree, and text.
ghost use Rattle.std.specs.Prelude.{◌≡◌, ◌<◌, ℕ, List, ◌∷◌, length};
ghost use Rattle.pl_nbread.specs.Parts as spec;
ghost use Rattle.pl_nbread.specs.Scanned.{IsSeen, Sees, SeesFront, Tells};
ghost use Rattle.pl_nbread.specs.Tokens.{Attribute, Open, begins_with_letter, behind_comment};
ghost use Rattle.pl_nbread.specs.Tokens.{behind_first, declaration_at, end_at, front, is_greater};
ghost use Rattle.pl_nbread.specs.Tokens.{tag_at, tag_or_text};

use crate::attributes::{Attributes, cut, is_name, read_attributes};

// The name of a tag goes up to one of these.
const TAG_NAME_ENDS: [char; 7] = ['\t', '\n', '\x0c', '\r', ' ', '/', '>'];

#[derive(Clone, Copy)]
pub(crate) enum Part<'a> {
    /// `<H3>`: the heading of a folder.
    Heading(Attributes<'a>),
    /// `<A>`: a bookmark.
    Link(Attributes<'a>),
    /// `<DL>` and `</DL>`, around the children of a folder.
    ListStart,
    ListEnd,
    /// `<HR>`: a separator.
    Rule,
    /// Another tag at which a title ends.
    TitleEnd,
    Text(&'a str),
    /// A tag that says nothing, or a comment.
    Other,
}

/// What a text begins with, and what stands behind it.
pub(crate) fn next_part(text: &str) -> (Part<'_>, &str)
    requires some { 0 < length text.now }
    ensures part { (b : ℕ) (bytes : List ℕ) → text.now ≡ b ∷ bytes
        → SeesFront (front b bytes).what result.0 }
    ensures behind { (b : ℕ) (bytes : List ℕ) → text.now ≡ b ∷ bytes
        → result.1.now ≡ (front b bytes).behind }
    ensures shorter { length result.1.now < length text.now }
{
    if let Some(behind) = text.strip_prefix('<') {
        return tag_or_text(behind);
    }
    let (run, behind) = cut(text, &['<']);
    (Part::Text(run), behind)
}

// What `<` begins. Where it begins nothing, it is text itself.
fn tag_or_text(text: &str) -> (Part<'_>, &str)
    ensures { IsSeen (tag_or_text text.now) result }
{
    if let Some(declaration) = text.strip_prefix('!') {
        return (Part::Other, behind_declaration(declaration));
    }
    if let Some(tag) = text.strip_prefix('/') {
        return end_tag(tag);
    }
    if begins_with_letter(text) {
        return start_tag(text);
    }
    (Part::Text("<"), text)
}

// What stands behind what `<!` begins: a comment, or something up to the next `>`.
fn behind_declaration(text: &str) -> &str
    ensures { result.now ≡ (declaration_at text.now).behind }
{
    match text.strip_prefix("--") {
        Some(comment) => behind_comment(comment),
        None => behind_greater(text),
    }
}

// What stands behind a comment.
fn behind_comment(text: &str) -> &str
    ensures { result.now ≡ behind_comment text.now }
{
    match text.split_once("-->") {
        Some((_, behind)) => behind,
        None => "",
    }
}

// What stands behind the next `>`.
fn behind_greater(text: &str) -> &str
    ensures { result.now ≡ behind_first is_greater text.now }
{
    match text.split_once('>') {
        Some((_, behind)) => behind,
        None => "",
    }
}

// A tag, from its name on, and what stands behind it.
fn start_tag(text: &str) -> (Part<'_>, &str)
    ensures { IsSeen (tag_at Open text.now) result }
{
    let (name, behind) = cut(text, &TAG_NAME_ENDS);
    match read_attributes(behind) {
        Some((attributes, behind)) => (opened(name, attributes), behind),
        None => (Part::Other, ""),
    }
}

// What `</` begins: a tag, or something up to the next `>` that says nothing.
fn end_tag(text: &str) -> (Part<'_>, &str)
    ensures { IsSeen (end_at text.now) result }
{
    if !begins_with_letter(text) {
        return (Part::Other, behind_greater(text));
    }
    let (name, behind) = cut(text, &TAG_NAME_ENDS);
    match read_attributes(behind) {
        Some((_, behind)) => (closed(name), behind),
        None => (Part::Other, ""),
    }
}

// A letter stands in front.
fn begins_with_letter(text: &str) -> bool
    ensures { result ≡ begins_with_letter text.now }
{
    matches!(text.as_bytes(), [first, ..] if first.is_ascii_alphabetic())
}

// What `<NAME ..>` is.
fn opened<'a>(name: &str, attributes: Attributes<'a>) -> Part<'a>
    ensures { (all : List Attribute) → Tells attributes.entry all
        → Sees (spec.opened name.now all) result }
{
    if is_name(name, "h3") {
        Part::Heading(attributes)
    } else if is_name(name, "a") {
        Part::Link(attributes)
    } else if is_name(name, "dl") {
        Part::ListStart
    } else if is_name(name, "hr") {
        Part::Rule
    } else if is_name(name, "dt") || is_name(name, "dd") {
        Part::TitleEnd
    } else {
        Part::Other
    }
}

// What `</NAME>` is.
fn closed(name: &str) -> Part<'static>
    ensures { Sees (spec.closed name.now) result }
{
    if is_name(name, "dl") {
        Part::ListEnd
    } else if is_name(name, "h3") || is_name(name, "a") {
        Part::TitleEnd
    } else {
        Part::Other
    }
}
