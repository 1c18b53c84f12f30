use pl_base::NoMemory;
use pl_desk::{MemDesk, MemSource};
use places::{Status, run};
use std::alloc::Global;
use std::test::Fail;

/// The worked file: a bookmark with two tags for the menu, and three nodes for the toolbar.
pub const WORKED: &str = "<!DOCTYPE NETSCAPE-Bookmark-file-1>\n\
    <!-- This is an automatically generated file.\n\
    It will be read and overwritten.\n\
    DO NOT EDIT! -->\n\
    <META HTTP-EQUIV=\"Content-Type\" CONTENT=\"text/html; charset=UTF-8\">\n\
    <TITLE>Bookmarks</TITLE>\n\
    <H1>Bookmarks</H1>\n\
    <DL><p>\n\
    <DT><H3 ADD_DATE=\"1700000000\" LAST_MODIFIED=\"1700000100\" \
    PERSONAL_TOOLBAR_FOLDER=\"true\">Bookmarks bar</H3>\n\
    <DL><p>\n\
    <DT><A HREF=\"https://a.example/\" ADD_DATE=\"1700000000\" \
    ICON=\"data:image/png;base64,AAAA\">A &amp; B</A>\n\
    <DT><H3 ADD_DATE=\"1700000001\" LAST_MODIFIED=\"1700000002\">Sub</H3>\n\
    <DL><p>\n\
    <DT><A HREF=\"https://b.example/x\" ADD_DATE=\"1700000003\">B</A>\n\
    </DL><p>\n\
    <DT><A HREF=\"not a url\" ADD_DATE=\"1700000004\">C</A>\n\
    </DL><p>\n\
    <DT><A HREF=\"https://c.example/\" TAGS=\"red,Blue\">D</A>\n\
    </DL><p>\n";

/// `run` in memory: a test compares what it says, and has no use for its clauses.
pub fn in_memory(
    alloc: Global,
    words: &[&str],
    input: &mut MemSource,
    desk: &mut MemDesk,
) -> Status {
    run(alloc, words, input, desk)
}

/// How a run of these words ends on the desk.
pub fn run_on(alloc: Global, words: &[&str], bytes: &[u8], desk: &mut MemDesk) -> Status {
    match MemSource::over(alloc, bytes, 4_096, &[]) {
        Ok(mut input) => in_memory(alloc, words, &mut input, desk),
        Err(NoMemory) => Status::NoMemory,
    }
}

/// A desk with the bytes of another, on which nothing was said yet.
pub fn copied(alloc: Global, desk: &MemDesk, fails: &[u32]) -> Result<MemDesk, NoMemory> {
    MemDesk::holding(alloc, desk.bytes(), fails)
}

/// A desk with the file of another, on which a run of these words is done.
pub fn done(alloc: Global, desk: &MemDesk, words: &[&str], bytes: &[u8]) -> Result<MemDesk, Fail> {
    let mut next = copied(alloc, desk, &[])?;
    if run_on(alloc, words, bytes, &mut next) != Status::Done {
        return Err("a run is not done".into());
    }
    Ok(next)
}

/// A new store, on a desk whose calls with these numbers fail.
pub fn new_store(alloc: Global, fails: &[u32]) -> Result<MemDesk, Fail> {
    let desk = MemDesk::holding(alloc, &[], &[])?;
    let desk = done(alloc, &desk, &["new", "s"], b"")?;
    if desk.said() != b"new\n".as_slice() {
        return Err("another word than new".into());
    }
    Ok(copied(alloc, &desk, fails)?)
}

/// What was said on a desk.
pub fn said_text(desk: &MemDesk) -> &str {
    str::from_utf8(desk.said()).unwrap_or("no UTF-8")
}
