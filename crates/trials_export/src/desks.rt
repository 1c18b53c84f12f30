// Exports of a store in memory that is kept as a file.
use pl_base::NoMemory;
use pl_desk::MemDesk;
use std::alloc::Global;
use std::process::Abort;
use std::test::Fail;
use trials_desks::{done, new_store, said_text};

pub const DOCTYPE: &str = "<!DOCTYPE NETSCAPE-Bookmark-file-1>";

// What stands before the nodes of the menu.
const HEADER: &str = "<!DOCTYPE NETSCAPE-Bookmark-file-1>\n\
    <META HTTP-EQUIV=\"Content-Type\" CONTENT=\"text/html; charset=UTF-8\">\n\
    <TITLE>Bookmarks</TITLE>\n<H1>Bookmarks Menu</H1>\n\n<DL><p>\n";

/// What stands between the header and the last line of what is said of the worked file.
pub const WORKED_LINES: &str = "\
    \x20   <DT><A HREF=\"https://c.example/\" ADD_DATE=\"0\" LAST_MODIFIED=\"0\" \
    TAGS=\"Blue,red\">D</A>\n\
    \x20   <DT><H3 ADD_DATE=\"0\" LAST_MODIFIED=\"0\" \
    PERSONAL_TOOLBAR_FOLDER=\"true\">Bookmarks Toolbar</H3>\n\
    \x20   <DL><p>\n\
    \x20       <DT><A HREF=\"https://a.example/\" ADD_DATE=\"1700000000\" \
    LAST_MODIFIED=\"1700000000\">A &amp; B</A>\n\
    \x20       <DT><H3 ADD_DATE=\"1700000001\" LAST_MODIFIED=\"1700000002\">Sub</H3>\n\
    \x20       <DL><p>\n\
    \x20           <DT><A HREF=\"https://b.example/x\" ADD_DATE=\"1700000003\" \
    LAST_MODIFIED=\"1700000003\">B</A>\n\
    \x20       </DL><p>\n\
    \x20   </DL><p>\n";

/// A new store after the import of these bytes.
pub fn imported(alloc: Global, bytes: &[u8]) -> Result<MemDesk, Fail> {
    let desk = new_store(alloc, &[])?;
    done(alloc, &desk, &["import", "s"], bytes)
}

/// A desk with the file of another, on which its bookmarks were said.
pub fn exported(alloc: Global, desk: &MemDesk) -> Result<MemDesk, Fail> {
    done(alloc, desk, &["export", "s"], b"")
}

/// The whole text that has these lines between the header and the last one.
pub fn with_header(alloc: Global, lines: &str) -> Result<String, NoMemory> {
    Ok(format!(in alloc; "{HEADER}{lines}</DL><p>\n")?)
}

/// An export of the store says these lines between the header and the last one. A new store, into
/// which that is imported, says the same.
pub fn expect_lines(
    rt: &impl Abort,
    alloc: Global,
    desk: &MemDesk,
    lines: &str,
) -> Result<(), Fail> {
    let wanted = with_header(alloc, lines)?;
    let first = exported(alloc, desk)?;
    assert_eq!(rt; said_text(&first), wanted.as_str());
    let next = imported(alloc, first.said())?;
    let again = exported(alloc, &next)?;
    assert_eq!(rt; said_text(&again), wanted.as_str());
    Ok(())
}
