// Lines of queries and of the address bar, the columns at which they are refused, counted by hand,
// and what their replies are written as.
use crate::written::expect_text;
use pl_base::{Micros, NoMemory, PageId, Refusal, Seq, Txt};
use pl_query::ResultRow;
use pl_script::{LineError, line};
use pl_step::{BarRow, Command, Reply};
use std::alloc::Global;
use std::process::Abort;
use std::test::Fail;

const REFUSED: &[(&[u8], u32)] = &[
    // The text stands at column 7 behind `query`, which is as long as `place`.
    (b"query", 6),
    (b"query\tplace:\\x", 7),
    (b"query\tplace:\\", 7),
    (b"query\tplace:\xff", 7),
    (b"query\tplace:\t", 14),
    (b"Query\tplace:", 1),
    (b"place", 6),
    (b"place\t\\q", 7),
    (b"place\tplace:\tx", 14),
    // Behind `fill` it stands at column 6.
    (b"fill", 5),
    (b"fill\ta\\", 6),
    (b"fill\ta\t", 8),
];

const BARS_REFUSED: &[(&[u8], u32)] = &[
    // The number stands at column 5, and behind one digit the text at 7.
    (b"bar", 4),
    (b"bar\t", 5),
    (b"bar\t10", 7),
    (b"bar\t0\ta", 5),
    (b"bar\t1001\ta", 5),
    (b"bar\t01\ta", 5),
    (b"bar\t-1\ta", 5),
    (b"bar\t\ta", 5),
    (b"bar\t4294967297\ta", 5),
    (b"bar\t1\t\\x", 7),
    (b"bar\t1\ta\tb", 9),
    (b"bar\t1000\ta\t", 12),
];

#[test]
fn refuses_lines_at_their_columns(rt: HostRuntime) {
    for (bytes, column) in REFUSED {
        let refused = Some(LineError::Refused(Refusal::BadLine(*column)));
        assert_eq!(rt; line(rt.alloc(), bytes).err(), refused, "at {column}");
    }
}

#[test]
fn refuses_bars_at_their_columns(rt: HostRuntime) {
    for (bytes, column) in BARS_REFUSED {
        let refused = Some(LineError::Refused(Refusal::BadLine(*column)));
        assert_eq!(rt; line(rt.alloc(), bytes).err(), refused, "at {column}");
    }
}

const BARS: &[(&[u8], u32, &str)] = &[
    (b"bar\t1\ta", 1, "a"),
    (b"bar\t10\ta\\tb", 10, "a\tb"),
    (b"bar\t1000\t", 1_000, ""),
];

fn expect_bar(rt: &impl Abort, command: &Option<Command>, most: u32, typed: &str) {
    match command {
        Some(Command::Bar { max, text }) => {
            assert_eq!(rt; *max, most);
            assert_eq!(rt; text.as_str(), typed);
        }
        _ => assert!(rt; false, "no bar"),
    }
}

#[test]
fn reads_bars(rt: HostRuntime) -> Result<(), Fail> {
    for (bytes, most, typed) in BARS {
        let command = line(rt.alloc(), bytes)?;
        expect_bar(&rt, &command, *most, typed);
        drop(command);
    }
    Ok(())
}

fn expect_fill(rt: &impl Abort, command: &Option<Command>, typed: &str) {
    match command {
        Some(Command::Fill { text }) => assert_eq!(rt; text.as_str(), typed),
        _ => assert!(rt; false, "no fill"),
    }
}

#[test]
fn reads_fills(rt: HostRuntime) -> Result<(), Fail> {
    let command = line(rt.alloc(), b"fill\tmoz\\\\")?;
    expect_fill(&rt, &command, "moz\\");
    drop(command);
    Ok(())
}

fn bar_row(
    alloc: Global,
    id: PageId,
    frecency: i64,
    url: &str,
    title: &str,
) -> Result<BarRow, NoMemory> {
    Ok(BarRow {
        id,
        frecency,
        url: Txt::copied(alloc, url)?,
        title: Txt::copied(alloc, title)?,
    })
}

fn bar(alloc: Global) -> Result<Reply, NoMemory> {
    let mut rows = Vec::new(alloc);
    rows.push(bar_row(alloc, PageId(3), 2_000, "https://a.example/", "a\tb")?)?;
    rows.push(bar_row(alloc, PageId(12), -1, "u:\\", "")?)?;
    Ok(Reply::Bar(Seq::from(rows)))
}

#[test]
fn writes_bars(rt: HostRuntime) -> Result<(), Fail> {
    let reply = bar(rt.alloc())?;
    let want = "rows\t2\npage\t3\t2000\thttps://a.example/\ta\\tb\npage\t12\t-1\tu:\\\\\t\n";
    expect_text(&rt, rt.alloc(), reply, want)
}

#[test]
fn writes_no_rows(rt: HostRuntime) -> Result<(), Fail> {
    let alloc = rt.alloc();
    let found = Reply::Rows(Seq::from(Vec::new(alloc)));
    expect_text(&rt, alloc, found, "rows\t0\n")?;
    let offered = Reply::Bar(Seq::from(Vec::new(alloc)));
    expect_text(&rt, alloc, offered, "rows\t0\n")
}

#[test]
fn writes_canonical_texts(rt: HostRuntime) -> Result<(), Fail> {
    let text = Txt::copied(rt.alloc(), "place:terms=a\\b")?;
    let want = "place\tplace:terms=a\\\\b\n";
    expect_text(&rt, rt.alloc(), Reply::Place(text), want)
}

#[test]
fn writes_groups(rt: HostRuntime) -> Result<(), Fail> {
    let alloc = rt.alloc();
    let group = Txt::copied(alloc, "mozilla.org")?;
    let fill = Reply::Fill {
        group,
        total: 18_446_744_073_709_551_615,
    };
    expect_text(
        &rt,
        alloc,
        fill,
        "fill\tmozilla.org\t18446744073709551615\n",
    )?;
    expect_text(&rt, alloc, Reply::NoFill, "nofill\n")
}

fn undated_row(alloc: Global) -> Result<ResultRow, NoMemory> {
    Ok(ResultRow {
        id: 3,
        url: Txt::copied(alloc, "u:\\")?,
        title: Txt::copied(alloc, "a\tb")?,
        date: None,
        count: 2,
        frecency: -1,
        tags: Txt::copied(alloc, "red,Blue\n")?,
    })
}

fn dated_row(alloc: Global) -> Result<ResultRow, NoMemory> {
    Ok(ResultRow {
        id: 12,
        url: Txt::copied(alloc, "https://a.example/")?,
        title: Txt::copied(alloc, "")?,
        date: Some(Micros(7)),
        count: 0,
        frecency: 100,
        tags: Txt::copied(alloc, "")?,
    })
}

fn found(alloc: Global) -> Result<Reply, NoMemory> {
    let mut rows = Vec::new(alloc);
    rows.push(undated_row(alloc)?)?;
    rows.push(dated_row(alloc)?)?;
    Ok(Reply::Rows(Seq::from(rows)))
}

#[test]
fn writes_found_rows(rt: HostRuntime) -> Result<(), Fail> {
    let reply = found(rt.alloc())?;
    let want = "rows\t2\nrow\t3\tu:\\\\\ta\\tb\t-\t2\t-1\tred,Blue\\n\n\
        row\t12\thttps://a.example/\t\t7\t0\t100\t\n";
    expect_text(&rt, rt.alloc(), reply, want)
}
