// What one field stands for.
ghost use Rattle.std.specs.Prelude.{◌≡◌, ◌++◌, None, Some, false, true, IfOk, OnOk};
ghost use Rattle.std.specs.Prelude.{encode_utf8};
ghost use Rattle.std.specs.Option.{option_map};
ghost use Rattle.std.specs.String.{string_bytes};
ghost use Rattle.pl_script.specs.Reply.{date_text};
ghost use Rattle.pl_script.specs.Script as spec;

use crate::word::Word;
use pl_base::{ItemId, Micros, NoMemory, Transition, Txt, VisitId, number, number_32};
use pl_tree::Place;
use std::alloc::Global;

/// The address bar is asked for no more pages.
const MOST_OFFERED: u32 = 1_000;

/// The word of a field, where it begins a line that is known.
pub fn word(field: &[u8]) -> Option<Word>
    ensures { result ≡ spec.word_of field.now }
{
    match field {
        b"day" => Some(Word::Day),
        b"visit" => Some(Word::Visit),
        b"title" => Some(Word::Title),
        b"page" => Some(Word::Page),
        b"origin" => Some(Word::Origin),
        b"stats" => Some(Word::Stats),
        b"unvisit" => Some(Word::Unvisit),
        b"forget" => Some(Word::Forget),
        b"expire" => Some(Word::Expire),
        b"trim" => Some(Word::Trim),
        b"folder" => Some(Word::Folder),
        b"bookmark" => Some(Word::Bookmark),
        b"separator" => Some(Word::Separator),
        b"move" => Some(Word::Move),
        b"retitle" => Some(Word::Retitle),
        b"remove" => Some(Word::Remove),
        b"tag" => Some(Word::Tag),
        b"untag" => Some(Word::Untag),
        b"list" => Some(Word::List),
        b"query" => Some(Word::Query),
        b"place" => Some(Word::Place),
        b"bar" => Some(Word::Bar),
        b"fill" => Some(Word::Fill),
        _ => None,
    }
}

/// The text of a field, where its escapes are proper and it is UTF-8.
pub fn text(alloc: Global, field: &[u8]) -> Result<Option<Txt>, NoMemory>
    ensures { IfOk result (λ text. text ≡ spec.text_of field.now) }
{
    let Some(bytes) = unescaped(alloc, field)? else {
        return Ok(None);
    };
    match String::from_utf8(bytes) {
        Ok(text) => Ok(Some(Txt::from(text))),
        Err(_) => Ok(None),
    }
}

fn unescaped(alloc: Global, field: &[u8]) -> Result<Option<Vec<u8>>, NoMemory>
    ensures { IfOk result (λ bytes.
        option_map (λ v. v.items) bytes ≡ spec.unescaped false field.now) }
{
    let mut bytes = Vec::new(alloc);
    let mut after_backslash = false;
    for &byte in field {
        if after_backslash {
            let Some(plain) = escaped_byte(byte) else {
                return Ok(None);
            };
            bytes.push(plain)?;
            after_backslash = false;
        } else if byte == b'\\' {
            after_backslash = true;
        } else {
            bytes.push(byte)?;
        }
    }
    Ok(if after_backslash { None } else { Some(bytes) })
}

fn escaped_byte(byte: u8) -> Option<u8>
    ensures { result ≡ spec.escaped_byte byte }
{
    match byte {
        b'\\' => Some(b'\\'),
        b't' => Some(b'\t'),
        b'n' => Some(b'\n'),
        b'r' => Some(b'\r'),
        _ => None,
    }
}

/// A text as replies write it, which reads back as the text.
pub fn escaped(alloc: Global, text: &str) -> Result<String, NoMemory>
    ensures exact { IfOk result (λ written. string_bytes written ≡ spec.escaped text.now) }
    ensures reads_back { IfOk result (λ written.
        spec.text_of (string_bytes written) ≡ Some text.now) }
{
    let mut written = String::new(alloc);
    push_escaped(&mut written, text)?;
    Ok(written)
}

/// The same behind what is written.
pub fn push_escaped(written: &mut String, text: &str) -> Result<(), NoMemory>
    ensures exact { OnOk result (string_bytes written.new
        ≡ string_bytes written.old ++ spec.escaped text.now) }
    ensures reads_back { OnOk result (spec.text_of (spec.escaped text.now) ≡ Some text.now) }
{
    if is_plain(text) {
        written.push_str(text)?;
        return Ok(());
    }
    push_chars(written, text)
}

// Whether no byte of the text is escaped, as most texts are. Each byte is looked at, which takes
// less time than to stop at the first.
fn is_plain(text: &str) -> bool
    ensures { result ≡ true → spec.escaped text.now ≡ text.now }
{
    let mut plain = true;
    for &byte in text.as_bytes() {
        plain = plain & stays(byte);
    }
    plain
}

// Whether a byte is written as it is: so is each that is no control character and no backslash.
fn stays(byte: u8) -> bool
    ensures { result ≡ true → spec.escape_of byte ≡ None }
{
    byte >= b' ' && byte != b'\\'
}

// The characters of the text one by one.
fn push_chars(written: &mut String, text: &str) -> Result<(), NoMemory>
    ensures { OnOk result (string_bytes written.new
        ≡ string_bytes written.old ++ spec.escaped text.now) }
{
    for c in text.chars() {
        push_char(written, c)?;
    }
    Ok(())
}

fn push_char(written: &mut String, c: char) -> Result<(), NoMemory>
    ensures { OnOk result (string_bytes written.new
        ≡ string_bytes written.old ++ spec.escaped (encode_utf8 c)) }
{
    if let Some(letter) = escape_of(c) {
        written.push('\\')?;
        written.push(letter)?;
    } else {
        written.push(c)?;
    }
    Ok(())
}

fn escape_of(c: char) -> Option<char>
    ensures { result ≡ spec.escape_of c }
{
    match c {
        '\\' => Some('\\'),
        '\t' => Some('t'),
        '\n' => Some('n'),
        '\r' => Some('r'),
        _ => None,
    }
}

/// A date as replies write it, or `-` where there is none.
pub fn date_text(alloc: Global, date: Option<Micros>) -> Result<String, NoMemory>
    ensures { IfOk result (λ text. string_bytes text ≡ date_text date) }
{
    Ok(match date {
        Some(date) => format!(in alloc; "{}", date.0)?,
        None => String::from_str(alloc, "-")?,
    })
}

pub fn transition(field: &[u8]) -> Option<Transition>
    ensures { result ≡ spec.transition_of field.now }
{
    Transition::from_number(number(field)?)
}

/// A date, which may be out of range.
pub fn date(field: &[u8]) -> Option<Micros>
    ensures { result ≡ spec.date_of field.now }
{
    Some(Micros(number(field)?))
}

pub fn visit_id(field: &[u8]) -> Option<VisitId>
    ensures { result ≡ spec.visit_id_of field.now }
{
    Some(VisitId(number_32(field)?))
}

pub fn item_id(field: &[u8]) -> Option<ItemId>
    ensures { result ≡ spec.item_id_of field.now }
{
    Some(ItemId(number_32(field)?))
}

/// A place among the children of a folder, which may have fewer.
pub fn place(field: &[u8]) -> Option<Place>
    ensures { result ≡ spec.place_of field.now }
{
    match field {
        b"end" => Some(Place::End),
        _ => Some(Place::Number(number_32(field)?)),
    }
}

/// How many pages the address bar is asked for: at least one.
pub fn max(field: &[u8]) -> Option<u32>
    ensures { result ≡ spec.max_of field.now }
{
    match number_32(field)? {
        most @ 1..=MOST_OFFERED => Some(most),
        _ => None,
    }
}
