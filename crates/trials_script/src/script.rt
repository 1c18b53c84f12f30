// Lines and the columns at which they are refused, counted by hand, and what texts and replies are
// written as. In the tables `https://a.example/` has 18 bytes, so behind `visit` and a TAB the
// transition stands at column 26, the date at 28, and behind a date of one digit the source at 30;
// behind `title` the text at 26.
use crate::written::expect_text;
use pl_base::{IdKind, ItemId, Micros, NoMemory, PageId, Refusal, Transition, Txt, VisitId};
use pl_script::{LineError, escaped, line};
use pl_step::{Command, Reply};
use std::alloc::Global;
use std::process::Abort;
use std::test::Fail;

const REFUSED: &[(&[u8], u32)] = &[
    // The first word.
    (b"frob", 1),
    (b" visit", 1),
    (b"\tvisit", 1),
    (b"VISIT\thttps://a.example/\t1\t0", 1),
    (b"visit https://a.example/ 1 0", 1),
    (b"visits\thttps://a.example/\t1\t0", 1),
    (b"\xef\xbb\xbfvisit\thttps://a.example/\t1\t0", 1),
    (b"\r", 1),
    (b"visit\r", 1),
    // Fields are missing.
    (b"visit", 6),
    (b"visit\t", 7),
    (b"visit\thttps://a.example/", 25),
    (b"visit\thttps://a.example/\t1", 27),
    (b"visit\t\\\\", 9),
    // The address is no text.
    (b"visit\t\\x\t1\t0", 7),
    (b"visit\thttps://a.example/\\", 7),
    (b"visit\t\\t\\n\\r\\\\\\", 7),
    (b"visit\t\xff\t1\t0", 7),
    (b"visit\thttps://a.example/\xc3\tx\ty", 7),
    // The transition.
    (b"visit\t\t\t", 8),
    (b"visit\thttps://a.example/\t", 26),
    (b"visit\thttps://a.example/\t0\t0", 26),
    (b"visit\thttps://a.example/\t10\t0", 26),
    (b"visit\thttps://a.example/\t01\t0", 26),
    (b"visit\thttps://a.example/\t+1\t0", 26),
    (b"visit\thttps://a.example/\tx\ty\tz", 26),
    (b"visit\thttps://a.example/\t1\r\t0", 26),
    // The date.
    (b"visit\thttps://a.example/\t1\t", 28),
    (b"visit\thttps://a.example/\t1\t00", 28),
    (b"visit\thttps://a.example/\t1\t-1", 28),
    (b"visit\thttps://a.example/\t1\t 0", 28),
    (b"visit\thttps://a.example/\t1\t18446744073709551616", 28),
    // The source.
    (b"visit\thttps://a.example/\t1\t0\t", 30),
    (b"visit\thttps://a.example/\t1\t0\t00", 30),
    (b"visit\thttps://a.example/\t1\t0\t-1", 30),
    (b"visit\thttps://a.example/\t1\t0\t4294967296", 30),
    (b"visit\thttps://a.example/\t1\t00\tx", 28),
    // A title, and a page.
    (b"title", 6),
    (b"title\thttps://a.example/", 25),
    (b"title\t\xff\tA", 7),
    (b"title\thttps://a.example/\t\\x", 26),
    (b"title\thttps://a.example/\t\xc3", 26),
    (b"page", 5),
    (b"page\t\\", 6),
    // A field too many.
    (b"visit\thttps://a.example/\t1\t0\t1\t2", 32),
    (b"visit\thttps://a.example/\t1\t0\t4294967295\t", 41),
    (b"title\thttps://a.example/\tA\tB", 28),
    (b"title\thttps://a.example/\t\t", 27),
    (b"page\thttps://a.example/\t", 25),
];

#[test]
fn refuses_lines_at_their_columns(rt: HostRuntime) {
    for (bytes, column) in REFUSED {
        let refused = Some(LineError::Refused(Refusal::BadLine(*column)));
        assert_eq!(rt; line(rt.alloc(), bytes).err(), refused, "at {column}");
    }
}

const CAUSES: &[(&[u8], Refusal)] = &[
    (b"visit\t\t1\t0", Refusal::BadUrl),
    (b"visit\tno url\t1\t0", Refusal::BadUrl),
    (b"visit\tno url\t1\t0\t1", Refusal::BadUrl),
    (b"title\tno url\tA", Refusal::BadUrl),
    (b"page\tno url", Refusal::BadUrl),
    (b"page\t", Refusal::BadUrl),
    (
        b"visit\thttps://a.example/\t1\t253402300800000000",
        Refusal::BadDate,
    ),
    (
        b"visit\thttps://a.example/\t1\t18446744073709551615",
        Refusal::BadDate,
    ),
    // A date is asked before an address, and a field that is not of its form before both.
    (b"visit\tno url\t1\t253402300800000000", Refusal::BadDate),
    (b"visit\tno url\t1\t00", Refusal::BadLine(16)),
    (
        b"visit\tno url\t1\t253402300800000000\t",
        Refusal::BadLine(35),
    ),
];

#[test]
fn refuses_by_the_first_cause(rt: HostRuntime) {
    for (bytes, refusal) in CAUSES {
        let refused = Some(LineError::Refused(*refusal));
        assert_eq!(rt; line(rt.alloc(), bytes).err(), refused);
    }
}

#[test]
fn passes_over_comments(rt: HostRuntime) -> Result<(), Fail> {
    let cases: [&[u8]; 3] = [b"", b"#", b"# visit\t\xff"];
    for bytes in cases {
        let command = line(rt.alloc(), bytes)?;
        assert!(rt; command.is_none());
        drop(command);
    }
    Ok(())
}

fn expect_visit(
    rt: &impl Abort,
    command: &Option<Command>,
    text: &[u8],
    kind: Transition,
    when: Micros,
    from: Option<VisitId>,
) {
    match command {
        Some(
            Command::Visit {
                url,
                transition,
                date,
                source,
            },
        ) => {
            assert_eq!(rt; url.text().as_bytes(), text);
            assert_eq!(rt; *transition, kind);
            assert_eq!(rt; *date, when);
            assert!(rt; *source == from);
        }
        _ => assert!(rt; false, "no visit"),
    }
}

// Escapes come before the URL Standard, which strips or reads what they stand for.
const VISITS: &[(&[u8], &[u8], Transition, u64, Option<VisitId>)] = &[
    (
        b"visit\thttps://a.example/\t1\t0",
        b"https://a.example/",
        Transition::Link,
        0,
        None,
    ),
    (
        b"visit\thttps://a.\\texample\\r\\n/\t2\t1\t0",
        b"https://a.example/",
        Transition::Typed,
        1,
        Some(VisitId(0)),
    ),
    (
        b"visit\thttps:\\\\\\\\a.example\\\\\t5\t10\t9",
        b"https://a.example/",
        Transition::RedirectPermanent,
        10,
        Some(VisitId(9)),
    ),
    (
        b"visit\thttps://caf\xc3\xa9.example/\t1\t253402300799999999\t4294967295",
        b"https://xn--caf-dma.example/",
        Transition::Link,
        253_402_300_799_999_999,
        Some(VisitId(4_294_967_295)),
    ),
    (
        b"visit\tabout:blank\t1\t0",
        b"about:blank",
        Transition::Link,
        0,
        None,
    ),
];

#[test]
fn reads_visits(rt: HostRuntime) -> Result<(), Fail> {
    for (bytes, text, kind, micros, from) in VISITS {
        let command = line(rt.alloc(), bytes)?;
        expect_visit(&rt, &command, text, *kind, Micros(*micros), *from);
        drop(command);
    }
    Ok(())
}

const TITLES: &[(&[u8], &str)] = &[
    (b"title\thttps://a.example/\t", ""),
    (b"title\thttps://a.example/\tA b", "A b"),
    (b"title\thttps://a.example/\t\\\\\\t\\n\\r", "\\\t\n\r"),
    (b"title\thttps://a.example/\t#\xc3\xa9", "#\u{e9}"),
];

fn expect_title(rt: &impl Abort, command: &Option<Command>, title: &str) {
    match command {
        Some(Command::Title { url, text }) => {
            assert_eq!(rt; url.text(), "https://a.example/");
            assert_eq!(rt; text.as_str(), title);
        }
        _ => assert!(rt; false, "no title"),
    }
}

#[test]
fn reads_titles(rt: HostRuntime) -> Result<(), Fail> {
    for (bytes, title) in TITLES {
        let command = line(rt.alloc(), bytes)?;
        expect_title(&rt, &command, title);
        drop(command);
    }
    Ok(())
}

fn expect_page(rt: &impl Abort, command: &Option<Command>) {
    match command {
        Some(Command::Page { url }) => assert_eq!(rt; url.text(), "https://a.example/"),
        _ => assert!(rt; false, "no page"),
    }
}

#[test]
fn reads_pages(rt: HostRuntime) -> Result<(), Fail> {
    let command = line(rt.alloc(), b"page\tHTTPS://A.example")?;
    expect_page(&rt, &command);
    drop(command);
    Ok(())
}

const ESCAPES: &[(&str, &[u8])] = &[
    ("", b""),
    ("a\\b\tc\nd\re", b"a\\\\b\\tc\\nd\\re"),
    // Nothing else is escaped.
    ("\u{0}\u{c}\"'#%é", b"\x00\x0c\"'#%\xc3\xa9"),
];

#[test]
fn writes_four_escapes(rt: HostRuntime) -> Result<(), Fail> {
    for (text, written) in ESCAPES {
        let field = escaped(rt.alloc(), text)?;
        assert_eq!(rt; field.as_bytes(), *written);
    }
    Ok(())
}

const REFUSALS: &[(Refusal, &str)] = &[
    (Refusal::BadUrl, "refused\t1\n"),
    (Refusal::NotRecorded, "refused\t2\n"),
    (Refusal::NoVisit(VisitId(9)), "refused\t3\t9\n"),
    (Refusal::NoPage, "refused\t4\n"),
    (Refusal::NoItem(ItemId(9)), "refused\t5\t9\n"),
    (Refusal::NotAFolder(ItemId(9)), "refused\t6\t9\n"),
    (Refusal::Fixed(ItemId(4)), "refused\t7\t4\n"),
    (Refusal::BadPlace(9, 3), "refused\t8\t9\t3\n"),
    (Refusal::Inside(ItemId(7)), "refused\t9\t7\n"),
    (Refusal::BadQuery(0), "refused\t11\t0\n"),
    (Refusal::BadQuery(3), "refused\t11\t3\n"),
    (Refusal::Full(10), "refused\t12\t10\n"),
    (Refusal::NoIds(IdKind::Visit), "refused\t13\t2\n"),
    (Refusal::NoIds(IdKind::Item), "refused\t13\t3\n"),
    (Refusal::BadLine(262_145), "refused\t14\t262145\n"),
    (Refusal::BadDate, "refused\t16\n"),
];

#[test]
fn writes_refusals(rt: HostRuntime) -> Result<(), Fail> {
    for (refusal, written) in REFUSALS {
        expect_text(&rt, rt.alloc(), Reply::Refused(*refusal), written)?;
    }
    Ok(())
}

#[test]
fn writes_replies(rt: HostRuntime) -> Result<(), Fail> {
    let visit = Reply::Visit {
        visit: VisitId(12),
        page: PageId(3),
        frecency: -1,
    };
    expect_text(&rt, rt.alloc(), visit, "visit\t12\tpage\t3\tfrecency\t-1\n")?;
    expect_text(&rt, rt.alloc(), Reply::Done, "ok\n")
}

fn page(
    alloc: Global,
    last: Option<Micros>,
    marks: (bool, bool, bool),
    texts: (&str, &str, &str),
) -> Result<Reply, NoMemory> {
    Ok(Reply::Page {
        id: PageId(7),
        frecency: -1,
        count: 11,
        last,
        typed: marks.0,
        hidden: marks.1,
        bookmarked: marks.2,
        url: Txt::copied(alloc, texts.0)?,
        title: Txt::copied(alloc, texts.1)?,
        tags: Txt::copied(alloc, texts.2)?,
    })
}

#[test]
fn writes_pages(rt: HostRuntime) -> Result<(), Fail> {
    let alloc = rt.alloc();
    let bare = page(alloc, None, (true, false, false), ("u:", "", ""))?;
    let want = "page\t7\t-1\t11\t-\t1\t0\t0\tu:\t\t\n";
    expect_text(&rt, alloc, bare, want)?;
    let texts = ("https://a.example/\\", "a\tb\nc\rd\\", "red,Blue");
    let full = page(alloc, Some(Micros(10)), (false, true, true), texts)?;
    let want =
        "page\t7\t-1\t11\t10\t0\t1\t1\thttps://a.example/\\\\\ta\\tb\\nc\\rd\\\\\tred,Blue\n";
    expect_text(&rt, alloc, full, want)
}
