// Texts whose case is folded, names of tags, words, and what is typed into the address bar.

use pl_base::{NoMemory, Txt};
use pl_words::{Marks, TagError, TagName, fold, is_tag_name, matches, pieces, searched, tokens};
use std::alloc::Global;
use std::process::Abort;
use std::test::Fail;

// Each text with its fold, after `CaseFolding.txt` of the Unicode Standard.
const FOLDS: &[(&str, &str)] = &[
    ("", ""),
    ("Straße", "strasse"),
    ("STRASSE", "strasse"),
    ("STRA\u{1e9e}E", "strasse"),
    ("ΣΊΣΥΦΟΣ", "σίσυφοσ"),
    ("Σίσυφος", "σίσυφοσ"),
    ("ς", "σ"),
    ("σ", "σ"),
    ("I", "i"),
    ("\u{131}", "\u{131}"),
    ("\u{130}", "i\u{307}"),
    ("\u{ab70}", "\u{13a0}"),
    ("\u{13a0}", "\u{13a0}"),
    ("\u{13f8}", "\u{13f0}"),
    ("\u{fb03}", "ffi"),
    ("\u{390}", "\u{3b9}\u{308}\u{301}"),
    ("\u{212a}", "k"),
    ("\u{10400}", "\u{10428}"),
    ("É", "é"),
    ("e\u{301}", "e\u{301}"),
    (" a,B\t\n0", " a,b\t\n0"),
    ("日本", "日本"),
];

fn expect_fold(rt: &impl Abort, alloc: Global, text: &str, want: &str) -> Result<(), NoMemory> {
    let folds = fold(alloc, text)?;
    assert_eq!(rt; folds.as_str(), want, "{text}");
    Ok(())
}

// The text so many times.
fn repeated(alloc: Global, text: &str, count: u32) -> Result<String, NoMemory> {
    let mut whole = String::new(alloc);
    for _ in 0..count {
        whole.push_str(text)?;
    }
    Ok(whole)
}

#[test]
fn folds_texts(rt: HostRuntime) -> Result<(), Fail> {
    let alloc = rt.alloc();
    for (text, want) in FOLDS {
        expect_fold(&rt, alloc, text, want)?;
    }
    // 4,096 bytes, and at the second time those of 2,048 letters with three times as many.
    for (text, count, want) in [("A", 4096, "a"), ("\u{390}", 2048, "\u{3b9}\u{308}\u{301}")] {
        let (long, folds) = (repeated(alloc, text, count)?, repeated(alloc, want, count)?);
        assert_eq!(rt; long.len(), 4096);
        expect_fold(&rt, alloc, long.as_str(), folds.as_str())?;
    }
    Ok(())
}

// Each text with the name of the tag that it names, if it names one.
const NAMES: &[(&str, Option<&str>)] = &[
    ("n", Some("n")),
    ("News", Some("News")),
    ("\tnew", Some("new")),
    ("\nnew", Some("new")),
    ("\x0cnew", Some("new")),
    ("\rnew", Some("new")),
    (" new", Some("new")),
    ("new\t", Some("new")),
    ("new\n", Some("new")),
    ("new\x0c", Some("new")),
    ("new\r", Some("new")),
    ("new ", Some("new")),
    ("n\tew", Some("n\tew")),
    ("n\new", Some("n\new")),
    ("n\x0cew", Some("n\x0cew")),
    ("n\rew", Some("n\rew")),
    ("n ew", Some("n ew")),
    (" \t\r\n\x0c n  ew \x0c\n\r\t ", Some("n  ew")),
    ("a,b", None),
    (",a", None),
    ("a,", None),
    (" , ", None),
    ("", None),
    (" ", None),
    ("\t\n\x0c\r ", None),
    // White space that is no blank, and other characters like a comma.
    ("\x0b", Some("\x0b")),
    ("\x0bnew\x0b", Some("\x0bnew\x0b")),
    ("\u{a0}new\u{a0}", Some("\u{a0}new\u{a0}")),
    ("\u{2003}new\u{3000}", Some("\u{2003}new\u{3000}")),
    ("a\u{ff0c}b", Some("a\u{ff0c}b")),
    ("\0", Some("\0")),
];

fn expect_name(rt: &impl Abort, alloc: Global, text: &str, want: Option<&str>) {
    match TagName::read(alloc, text) {
        Ok(name) => assert_eq!(rt; want, Some(name.text()), "{text:?}"),
        Err(error) => {
            assert!(rt; want.is_none(), "{text:?}");
            assert_eq!(rt; error, TagError::BadTag, "{text:?}");
        }
    }
    // A tag's name is a text that names the tag of this very name.
    assert_eq!(rt; is_tag_name(text), want == Some(text), "{text:?}");
}

// How many letters stand before the end of a text, and whether all of it is the name of a tag.
const LENGTHS: &[(u32, &str, bool)] = &[
    (99, "a", true),
    (100, "a", false),
    (98, "é", true),
    (99, "é", false),
    (96, "😀", true),
    (97, "😀", false),
    (4096, "", false),
];

#[test]
fn reads_tag_names(rt: HostRuntime) -> Result<(), Fail> {
    let alloc = rt.alloc();
    for (text, want) in NAMES {
        expect_name(&rt, alloc, text, *want);
    }
    for (count, end, is_name) in LENGTHS {
        let mut text = repeated(alloc, "a", *count)?;
        text.push_str(end)?;
        let want = is_name.then_some(text.as_str());
        expect_name(&rt, alloc, text.as_str(), want);
    }
    // Blanks at the ends do not count.
    let longest = repeated(alloc, "a", 100)?;
    let mut text = repeated(alloc, " ", 5000)?;
    text.push_str(longest.as_str())?;
    text.push_str("\t")?;
    expect_name(&rt, alloc, text.as_str(), Some(longest.as_str()));
    Ok(())
}

// Two names, whether they are spelled alike, and whether they are of one tag.
const PAIRS: &[(&str, &str, bool, bool)] = &[
    ("news", "news", true, true),
    (" news\t", "news", true, true),
    ("news", "News", false, true),
    ("Straße", "STRASSE", false, true),
    ("new", "news", false, false),
    ("news", "new", false, false),
    ("é", "e\u{301}", false, false),
];

#[test]
fn compares_names(rt: HostRuntime) -> Result<(), Fail> {
    let alloc = rt.alloc();
    for (one, other, spelling, tag) in PAIRS {
        let (name, again) = (TagName::read(alloc, one)?, TagName::read(alloc, other)?);
        assert_eq!(rt;
            name.has_same_spelling(&again),
            *spelling,
            "{one:?} {other:?}"
        );
        let is_same = name.is_same_tag(alloc, &again)?;
        assert_eq!(rt; is_same, *tag, "{one:?} {other:?}");
    }
    Ok(())
}

// Each text with its words.
const PIECES: &[(&str, &[&str])] = &[
    ("", &[]),
    (" \t\n\x0b\x0c\r", &[]),
    (
        "\u{85}\u{a0}\u{1680}\u{2003}\u{2028}\u{202f}\u{205f}\u{3000}",
        &[],
    ),
    ("one", &["one"]),
    ("  one\t two\n", &["one", "two"]),
    ("b a b", &["b", "a", "b"]),
    ("*a # a,b", &["*a", "#", "a,b"]),
    ("é\u{a0}ü\u{3000}日本", &["é", "ü", "日本"]),
    // Neither is white space.
    ("a\u{200b}b \u{feff}", &["a\u{200b}b", "\u{feff}"]),
];

fn expect_words(rt: &impl Abort, text: &str, words: &[Txt], want: &[&str]) {
    assert_eq!(rt; words.len(), want.len(), "{text:?}");
    for (word, wanted) in words.iter().zip(want) {
        assert_eq!(rt; word.as_str(), *wanted, "{text:?}");
    }
}

#[test]
fn cuts_texts_into_words(rt: HostRuntime) -> Result<(), Fail> {
    let alloc = rt.alloc();
    for (text, want) in PIECES {
        let words = pieces(alloc, &Txt::copied(alloc, text)?)?;
        expect_words(&rt, text, words.as_slice(), want);
    }
    Ok(())
}

// Each URL with a prefix of it, and the text that is searched.
const SEARCHED: &[(&str, &str, &str)] = &[
    ("", "", ""),
    ("https://", "https://", ""),
    ("https://www.a.test/B", "https://www.", "a.test/b"),
    ("https://www.a.test/B", "https://", "www.a.test/b"),
    ("http://a.test/%41%62C", "http://", "a.test/abc"),
    (
        "http://a.test/?q=Stra%c3%9fe",
        "http://",
        "a.test/?q=strasse",
    ),
    ("%zz%4%", "", "%zz%4%"),
    ("%%41", "", "%a"),
    // What an escape stands for begins no other.
    ("%25%34%31%2541", "", "%41%41"),
    ("a%FFb", "", "a\u{fffd}b"),
    ("%E2%82%AC", "", "€"),
    ("%E2%82", "", "\u{fffd}"),
    ("%C3%28", "", "\u{fffd}("),
];

fn expect_searched(
    rt: &impl Abort,
    alloc: Global,
    url: &str,
    prefix: &str,
    want: &str,
) -> Result<(), NoMemory> {
    assert!(rt; url.as_bytes().starts_with(prefix.as_bytes()), "{url}");
    let text = searched(alloc, url, prefix)?;
    assert_eq!(rt; text.as_str(), want, "{url}");
    Ok(())
}

#[test]
fn decodes_urls(rt: HostRuntime) -> Result<(), Fail> {
    for (url, prefix, want) in SEARCHED {
        expect_searched(&rt, rt.alloc(), url, prefix, want)?;
    }
    Ok(())
}

// Each text with a word: whether it stands there anywhere, and whether on a boundary.
const PLACES: &[(&str, &str, bool, bool)] = &[
    ("cat", "cat", true, true),
    ("catch", "cat", true, true),
    ("scat", "cat", true, false),
    ("ccccat", "cat", true, false),
    ("scat cat", "cat", true, true),
    ("cut cup cap", "cap", true, true),
    ("ca", "cat", false, false),
    ("cut", "cat", false, false),
    ("", "cat", false, false),
    ("", "", true, true),
    ("ab", "", true, true),
    // Behind letters of ASCII, and behind the bytes beside them.
    ("acat", "cat", true, false),
    ("zcat", "cat", true, false),
    ("Acat", "cat", true, false),
    ("Zcat", "cat", true, false),
    ("`cat", "cat", true, true),
    ("{cat", "cat", true, true),
    ("@cat", "cat", true, true),
    ("[cat", "cat", true, true),
    ("1cat", "cat", true, true),
    ("_cat", "cat", true, true),
    ("écat", "cat", true, true),
    ("日本語", "本", true, true),
    // The place on a boundary begins within the one before it.
    ("xa-a-a", "a-a", true, true),
    ("a.b", ".b", true, false),
    ("a..b", ".b", true, true),
];

#[test]
fn finds_words(rt: HostRuntime) -> Result<(), Fail> {
    let alloc = rt.alloc();
    for (text, word, anywhere, on_boundary) in PLACES {
        let (searched, sought) = (Txt::copied(alloc, text)?, Txt::copied(alloc, word)?);
        assert_eq!(rt;
            matches(&searched, &sought, false),
            *anywhere,
            "{word} in {text}"
        );
        assert_eq!(rt;
            matches(&searched, &sought, true),
            *on_boundary,
            "{word} in {text}"
        );
    }
    Ok(())
}

// Each text of the address bar with its marks and its words.
const TOKENS: &[(&str, &str, &[&str])] = &[
    ("", "", &[]),
    ("^ * + # $", "^*+#$", &[]),
    ("rust # docs", "#", &["rust", "docs"]),
    ("$ c $ b ^", "^$", &["c", "b"]),
    ("+", "+", &[]),
    // A mark that is glued to something is none.
    ("*rust a^ a+b", "", &["*rust", "a^", "a+b"]),
    ("## $$ *#", "", &["##", "$$", "*#"]),
    ("% & ! ? -", "", &["%", "&", "!", "?", "-"]),
    ("\u{3000}*\u{a0}é", "*", &["é"]),
    ("b a b", "", &["b", "a", "b"]),
];

fn marks_in(text: &str) -> Marks {
    Marks {
        history: text.contains('^'),
        bookmark: text.contains('*'),
        tag: text.contains('+'),
        title: text.contains('#'),
        address: text.contains('$'),
    }
}

#[test]
fn reads_the_address_bar(rt: HostRuntime) -> Result<(), Fail> {
    let alloc = rt.alloc();
    for (text, marks, want) in TOKENS {
        let bar = tokens(alloc, &Txt::copied(alloc, text)?)?;
        assert_eq!(rt; bar.marks, marks_in(marks), "{text:?}");
        expect_words(&rt, text, bar.words.as_slice(), want);
    }
    Ok(())
}
