// URLs and titles, made from numbers.
use pl_base::{NoMemory, Txt};
use pl_link::Canon;
use std::alloc::Global;
use std::test::Fail;

/// A text of so many bytes, told by a number.
#[derive(Clone, Copy, Debug, PartialEq, Eq)]
pub struct Words {
    pub number: u32,
    pub length: u32,
}

/// A URL of an origin, told by a number, whose path has so many bytes more.
#[derive(Clone, Copy, Debug, PartialEq, Eq)]
pub struct Address {
    pub origin: u32,
    pub number: u32,
    pub length: u32,
}

const LETTERS: &[char] = &[
    'a', 'b', 'c', 'd', 'e', 'f', 'g', 'h', 'i', 'j', 'k', 'l', 'm', 'n', 'o', 'p', 'q', 'r', 's',
    't', 'u', 'v', 'w', 'x', 'y', 'z',
];

// So many letters, which go round from one that the number tells.
fn push_letters(text: &mut String, words: Words) -> Result<(), NoMemory> {
    let first = words.number as usize % LETTERS.len();
    for letter in LETTERS
        .iter()
        .cycle()
        .skip(first)
        .take(words.length as usize)
    {
        text.push(*letter)?;
    }
    Ok(())
}

impl Words {
    pub fn text(self, alloc: Global) -> Result<Txt, NoMemory> {
        let mut text = String::new(alloc);
        push_letters(&mut text, self)?;
        Ok(Txt::from(text))
    }
}

impl Address {
    pub fn url(self, alloc: Global) -> Result<Canon, Fail> {
        let Address {
            origin,
            number,
            length,
        } = self;
        let mut text = format!(in alloc; "https://host{origin}.example/{number}/")?;
        push_letters(&mut text, Words { number, length })?;
        Ok(Canon::read(alloc, text.as_str())?)
    }
}
