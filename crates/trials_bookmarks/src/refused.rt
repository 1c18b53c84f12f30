// Bytes that hold no bookmarks, and files that do harm to a careless reader.
use crate::shown::{DOCTYPE, expect_tree, read_file};
use pl_nbread::ReadError;
use std::alloc::Global;
use std::process::Abort;
use std::test::Fail;

// Bytes, and the offset at which they are refused.
const REFUSED: &[(&[u8], u64)] = &[
    (b"", 0),
    (b"<HTML>", 0),
    (b" \t\r\n\x0c", 5),
    (b"\n\n<!DOCTYPE html>", 2),
    (b"\xef\xbb\xbf", 3),
    (
        b"\xef\xbb\xbf \xef\xbb\xbf<!DOCTYPE NETSCAPE-Bookmark-file-1>",
        4,
    ),
    (b"x<!DOCTYPE NETSCAPE-Bookmark-file-1>", 0),
    (b"<!DOCTYPE  NETSCAPE-Bookmark-file-1>", 0),
    (b"<!DOCTYPE NETSCAPE-Bookmark-file-1 >", 0),
    (b"<!DOCTYPE NETSCAPE-Bookmark-file-1", 0),
    (b"<!-- --><!DOCTYPE NETSCAPE-Bookmark-file-1>", 0),
    (b"\x0b<!DOCTYPE NETSCAPE-Bookmark-file-1>", 0),
    // The offset of a character that is none is that of its first byte, wherever it stands.
    (b"<HTML>\xff", 6),
    (b"\xe2\x82", 0),
    (b"<!DOCTYPE NETSCAPE-Bookmark-file-1>a\xe2\x82(\xa1", 36),
    (b"<!DOCTYPE NETSCAPE-Bookmark-file-1>\xf0\x9f\x98", 35),
    (b"<!DOCTYPE NETSCAPE-Bookmark-file-1>\xc0\x80", 35),
    (b"<!DOCTYPE NETSCAPE-Bookmark-file-1>\xed\xa0\x80", 35),
    (b"\xef\xbb", 0),
];

#[test]
fn other_bytes_are_refused(rt: HostRuntime) -> Result<(), Fail> {
    for (bytes, offset) in REFUSED {
        let read = read_file(rt.alloc(), bytes);
        assert!(rt; matches!(read, Err(ReadError::NotBookmarks(at)) if at == *offset));
    }
    Ok(())
}

// A byte that is no character, at each place of a file.
#[test]
fn a_byte_of_no_character_is_refused_anywhere(rt: HostRuntime) -> Result<(), Fail> {
    let alloc = rt.alloc();
    let file = b"\xef\xbb\xbf\n<!DOCTYPE NETSCAPE-Bookmark-file-1><DL><H3 a='b'>\xc3\xa9&#65;";
    for (at, _) in file.iter().enumerate() {
        let mut bytes = Vec::from_slice(alloc, &file[..at])?;
        bytes.push(0xff)?;
        bytes.extend_from_slice(&file[at..])?;
        expect_refused_before(&rt, alloc, &bytes, at as u64)?;
    }
    Ok(())
}

// The bytes are refused at the offset, or a byte or two before it, where a character is broken.
fn expect_refused_before(
    rt: &impl Abort,
    alloc: Global,
    bytes: &[u8],
    offset: u64,
) -> Result<(), Fail> {
    let Err(ReadError::NotBookmarks(at)) = read_file(alloc, bytes) else {
        return Err("not refused")?;
    };
    assert!(rt; at <= offset && offset <= at.saturating_add(2));
    Ok(())
}

// A file with a text behind its doctype so many times.
fn repeated(alloc: Global, text: &str, times: usize) -> Result<String, Fail> {
    let mut file = String::from_str(alloc, DOCTYPE)?;
    for _ in 0..times {
        file.push_str(text)?;
    }
    Ok(file)
}

// Lists that are open, each in the one before it; and headings with their lists.
#[test]
fn a_hundred_thousand_lists_may_be_open(rt: HostRuntime) -> Result<(), Fail> {
    let alloc = rt.alloc();
    let mut file = repeated(alloc, "<DL>", 100_000)?;
    file.push_str("<HR>")?;
    expect_tree(&rt, alloc, file.as_bytes(), "|m0s[]")?;
    let mut file = repeated(alloc, "<H3><DL>", 100_000)?;
    file.push_str("<HR>")?;
    let tree = read_file(alloc, file.as_bytes())?;
    let last = tree.menu.as_slice().last().ok_or("no nodes")?;
    assert_eq!(rt; last.depth, 100_000);
    assert_eq!(rt; tree.menu.as_slice().len(), 100_001);
    Ok(())
}

// What would take a careless reader time by the square of its length.
#[test]
fn files_of_one_kind_of_byte_are_read(rt: HostRuntime) -> Result<(), Fail> {
    let alloc = rt.alloc();
    expect_tree(&rt, alloc, repeated(alloc, "<", 10_000_000)?.as_bytes(), "")?;
    expect_tree(
        &rt,
        alloc,
        repeated(alloc, "<a b='", 1_000_000)?.as_bytes(),
        "",
    )?;
    expect_tree(
        &rt,
        alloc,
        repeated(alloc, "</DL>", 1_000_000)?.as_bytes(),
        "",
    )?;
    expect_tree(
        &rt,
        alloc,
        repeated(alloc, "<!--", 1_000_000)?.as_bytes(),
        "",
    )
}

#[test]
fn a_title_of_millions_of_bytes_is_read(rt: HostRuntime) -> Result<(), Fail> {
    let alloc = rt.alloc();
    let mut file = String::from_str(alloc, DOCTYPE)?;
    file.push_str("<H3>")?;
    for _ in 0..2_000_000 {
        file.push_str("&#<")?;
    }
    let tree = read_file(alloc, file.as_bytes())?;
    let node = tree.menu.as_slice().first().ok_or("no nodes")?;
    assert_eq!(rt; node.title.as_str().len(), 6_000_000);
    Ok(())
}

// Tags of one bookmark, all different, and each of them once more in another spelling.
#[test]
fn hundreds_of_thousands_of_tags_are_read(rt: HostRuntime) -> Result<(), Fail> {
    let alloc = rt.alloc();
    let mut file = String::from_str(alloc, DOCTYPE)?;
    file.push_str("<A HREF='http://a/' TAGS='")?;
    for number in 0..300_000 {
        let names = format!(in alloc; "t{number},T{number},")?;
        file.push_str(names.as_str())?;
    }
    file.push_str("'>T</A>")?;
    let tree = read_file(alloc, file.as_bytes())?;
    let node = tree.menu.as_slice().first().ok_or("no nodes")?;
    let tags = node.tags.as_slice();
    assert_eq!(rt; tags.len(), 300_000);
    for (number, tag) in tags.iter().enumerate() {
        let name = format!(in alloc; "t{number}")?;
        assert_eq!(rt; tag.text(), name.as_str());
    }
    Ok(())
}
