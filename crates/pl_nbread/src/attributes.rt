// The attributes of a tag.
ghost use Rattle.std.specs.Prelude.{◌≡◌, ◌++◌, ◌<◌, IsTrue, List, [], ◌∷◌, nat_lt};
ghost use Rattle.std.specs.Char.{char_set_contains};
ghost use Rattle.std.specs.List.{before_first, list_all};
ghost use Rattle.pl_nbread.specs.BookmarkFile.{lowered};
ghost use Rattle.pl_nbread.specs.Parts.{is_name};
ghost use Rattle.pl_nbread.specs.Scanned.{FindsAttributes, Tells, first_said, now};
ghost use Rattle.pl_nbread.specs.Tokens as spec;
ghost use Rattle.pl_nbread.specs.Tokens.{Attribute, attribute_at, from_first};

// The name of an attribute goes up to one of these.
const NAME_ENDS: [char; 8] = ['\t', '\n', '\x0c', '\r', ' ', '/', '>', '='];

// A value without quotes goes up to one of these.
const VALUE_ENDS: [char; 6] = ['\t', '\n', '\x0c', '\r', ' ', '>'];

// Between attributes these are passed over.
const STRAY: [char; 7] = ['\t', '\n', '\x0c', '\r', ' ', '/', '='];

/// The attributes that say something here, each by the first that has its name.
#[derive(Clone, Copy, Default)]
pub(crate) struct Attributes<'a> {
    pub(crate) href: Option<&'a str>,
    pub(crate) add_date: Option<&'a str>,
    pub(crate) last_modified: Option<&'a str>,
    pub(crate) tags: Option<&'a str>,
    pub(crate) toolbar: Option<&'a str>,
    pub(crate) unfiled: Option<&'a str>,
    pub(crate) mobile: Option<&'a str>,
}

impl<'a> Attributes<'a> {
    // With one attribute more.
    fn with(self, name: &str, value: &'a str) -> Self
        ensures { (before : List Attribute) → Tells self.entry before → Tells result
            (before ++ record { name = name.now; value = value.now } ∷ []) }
    {
        Attributes {
            href: first(self.href, "href", name, value),
            add_date: first(self.add_date, "add_date", name, value),
            last_modified: first(self.last_modified, "last_modified", name, value),
            tags: first(self.tags, "tags", name, value),
            toolbar: first(self.toolbar, "personal_toolbar_folder", name, value),
            unfiled: first(self.unfiled, "unfiled_bookmarks_folder", name, value),
            mobile: first(self.mobile, "mobile_bookmarks_folder", name, value),
        }
    }
}

/// The attributes that a text begins with, up to `>`, and what stands behind it. `None` where the
/// text ends before.
pub(crate) fn read_attributes(text: &str) -> Option<(Attributes<'_>, &str)>
    ensures { FindsAttributes text.now result }
{
    let mut found = Attributes::default();
    let mut left = text;
    while !left.is_empty() {
        if let Some(behind) = left.strip_prefix('>') {
            return Some((found, behind));
        }
        if let Some(behind) = left.strip_prefix(STRAY) {
            left = behind;
            continue;
        }
        let (name, value, behind) = attribute(left);
        found = found.with(name, value);
        left = behind;
    }
    None
}

// What the first attribute with the known name says, with one attribute more.
fn first<'a>(before: Option<&'a str>, known: &str, name: &str, value: &'a str) -> Option<&'a str>
    ensures { now result ≡ first_said (now before.entry) (lowered known.now) name.now value.now }
{
    if before.is_none() && is_name(name, known) {
        Some(value)
    } else {
        before
    }
}

/// A name is this one, its letters of either case.
pub(crate) fn is_name(name: &str, known: &str) -> bool
    ensures { result ≡ is_name (lowered known.now) name.now }
{
    name.eq_ignore_ascii_case(known)
}

// The name and the value of the attribute that a text begins with, and what stands behind.
fn attribute(text: &str) -> (&str, &str, &str)
    ensures name { result.0.now ≡ (attribute_at text.now).what.name }
    ensures value { result.1.now ≡ (attribute_at text.now).what.value }
    ensures behind { result.2.now ≡ (attribute_at text.now).behind }
{
    let (name, behind) = cut(text, &NAME_ENDS);
    let (value, behind) = value_behind(behind);
    (name, value, behind)
}

// The value that follows a name, behind a `=`, and what stands behind.
fn value_behind(text: &str) -> (&str, &str)
    ensures value { result.0.now ≡ (spec.value_behind text.now).what }
    ensures behind { result.1.now ≡ (spec.value_behind text.now).behind }
{
    match text.trim_ascii_start().strip_prefix('=') {
        Some(value) => value_at(value.trim_ascii_start()),
        None => ("", text),
    }
}

// The value that a text begins with, in quotes or not, and what stands behind.
fn value_at(text: &str) -> (&str, &str)
    ensures value { result.0.now ≡ (spec.value_at text.now).what }
    ensures behind { result.1.now ≡ (spec.value_at text.now).behind }
{
    if let Some(quoted) = text.strip_prefix('"') {
        return quoted.split_once('"').unwrap_or((quoted, ""));
    }
    if let Some(quoted) = text.strip_prefix('\'') {
        return quoted.split_once('\'').unwrap_or((quoted, ""));
    }
    cut(text, &VALUE_ENDS)
}

/// What stands before the first of these characters, or all, and what stands from there on.
pub(crate) fn cut<'a>(text: &'a str, ends: &[char]) -> (&'a str, &'a str)
    requires ascii { IsTrue (list_all (λ c. nat_lt c 128) ends.now) }
    ensures front { result.0.now ≡ before_first (char_set_contains ends.now) text.now }
    ensures behind { result.1.now ≡ from_first (char_set_contains ends.now) text.now }
{
    text.split_at(text.find(ends).unwrap_or(text.len()))
}
