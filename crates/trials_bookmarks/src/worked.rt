// A file with everything in it, and each front of it.
use crate::shown::{DOCTYPE, expect_tree, read_file};
use pl_nbread::ReadError;
use std::test::Fail;

pub const WORKED: &str = "<!DOCTYPE NETSCAPE-Bookmark-file-1>\n\
    <!-- This is an automatically generated file.\n\
    It will be read and overwritten.\n\
    DO NOT EDIT! -->\n\
    <META HTTP-EQUIV=\"Content-Type\" CONTENT=\"text/html; charset=UTF-8\">\n\
    <TITLE>Bookmarks</TITLE>\n\
    <H1>Bookmarks</H1>\n\
    <DL><p>\n\
    <DT><H3 ADD_DATE=\"1700000000\" LAST_MODIFIED=\"1700000100\" \
    PERSONAL_TOOLBAR_FOLDER=\"true\">Bookmarks bar</H3>\n\
    <DL><p>\n\
    <DT><A HREF=\"https://a.example/\" ADD_DATE=\"1700000000\" \
    ICON=\"data:image/png;base64,AAAA\">A &amp; B</A>\n\
    <DT><H3 ADD_DATE=\"1700000001\" LAST_MODIFIED=\"1700000002\">Sub</H3>\n\
    <DL><p>\n\
    <DT><A HREF=\"https://b.example/x\" ADD_DATE=\"1700000003\">B</A>\n\
    </DL><p>\n\
    <DT><A HREF=\"not a url\" ADD_DATE=\"1700000004\">C</A>\n\
    </DL><p>\n\
    <DT><A HREF=\"https://c.example/\" TAGS=\"red,Blue\">D</A>\n\
    </DL><p>\n";

const TREE: &str = "|m0b[D] https://c.example/ #red,Blue\
    |t0b[A & B] https://a.example/ +1700000000\
    |t0f[Sub] +1700000001 ~1700000002\
    |t1b[B] https://b.example/x +1700000003\
    |skipped 1";

#[test]
fn the_worked_file_is_read(rt: HostRuntime) -> Result<(), Fail> {
    let alloc = rt.alloc();
    expect_tree(&rt, alloc, WORKED.as_bytes(), TREE)?;
    // Without its last line it says the same.
    let front = WORKED.strip_suffix("</DL><p>\n").ok_or("no last line")?;
    expect_tree(&rt, alloc, front.as_bytes(), TREE)
}

// A front is refused at 0 until the doctype stands there, and gives a tree from then on.
#[test]
fn each_front_is_read(rt: HostRuntime) -> Result<(), Fail> {
    let alloc = rt.alloc();
    for (end, _) in WORKED.as_bytes().iter().enumerate() {
        let read = read_file(alloc, &WORKED.as_bytes()[..end]);
        if end < DOCTYPE.len() {
            assert!(rt; matches!(read, Err(ReadError::NotBookmarks(0))));
        } else {
            assert!(rt; read.is_ok());
        }
    }
    Ok(())
}
