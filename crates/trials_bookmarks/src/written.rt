// Bookmark files that are written, and read again.
ghost use Rattle.std.specs.Prelude.{IfOk};
ghost use Rattle.pl_nbread.specs.WellFormed.{AreWellFormed};

use crate::shown::{DOCTYPE, expect_tree, read_file};
use crate::worked::WORKED;
use pl_base::MICROS_PER_SECOND;
use pl_nbread::Tree;
use pl_nbwrite::text;
use std::alloc::Global;
use std::process::Abort;
use std::test::Fail;
use trials_shown::shown;

// What is written of the worked file.
const WRITTEN: &str = "<!DOCTYPE NETSCAPE-Bookmark-file-1>\n\
    <META HTTP-EQUIV=\"Content-Type\" CONTENT=\"text/html; charset=UTF-8\">\n\
    <TITLE>Bookmarks</TITLE>\n<H1>Bookmarks Menu</H1>\n\n<DL><p>\n\
    \x20   <DT><A HREF=\"https://c.example/\" ADD_DATE=\"0\" LAST_MODIFIED=\"0\" \
    TAGS=\"red,Blue\">D</A>\n\
    \x20   <DT><H3 ADD_DATE=\"0\" LAST_MODIFIED=\"0\" \
    PERSONAL_TOOLBAR_FOLDER=\"true\">Bookmarks Toolbar</H3>\n\
    \x20   <DL><p>\n\
    \x20       <DT><A HREF=\"https://a.example/\" ADD_DATE=\"1700000000\" \
    LAST_MODIFIED=\"1700000000\">A &amp; B</A>\n\
    \x20       <DT><H3 ADD_DATE=\"1700000001\" LAST_MODIFIED=\"1700000002\">Sub</H3>\n\
    \x20       <DL><p>\n\
    \x20           <DT><A HREF=\"https://b.example/x\" ADD_DATE=\"1700000003\" \
    LAST_MODIFIED=\"1700000003\">B</A>\n\
    \x20       </DL><p>\n\
    \x20   </DL><p>\n</DL><p>\n";

// Bodies of files whose texts want each escape, lists that end several at a time, and each root.
const BODIES: &[&str] = &[
    "",
    "<H3>f",
    "<A HREF='http://a/?x=1&amp;y=%27'>&#32;a &lt;b&gt; &quot;&apos;&amp;amp; c&#9;</A>",
    "<A HREF='http://a/'>&#32;<A HREF='http://b/'>&#32;&#32;<A HREF='http://c/'>&#10;&#12;&#13;",
    "<A HREF='http://a/'>é&#0;😀&#xFEFF;<H3>\u{feff}&#1;&#127;</H3>",
    "<A HREF='http://a/' TAGS='a&amp;b,&quot;c&quot;,d e,&lt;f' ADD_DATE='1' LAST_MODIFIED='0'>t",
    "<DL><H3>f<DL><H3>g<DL><H3>h<DL></DL></DL></DL><HR><H3>i<DL><HR>",
    "<H3 PERSONAL_TOOLBAR_FOLDER=true><DL><H3>f<DL><HR></DL></DL>\
     <H3 UNFILED_BOOKMARKS_FOLDER=true><DL><HR></DL>\
     <H3 MOBILE_BOOKMARKS_FOLDER=true><DL><A HREF='http://a/'>a</DL><HR>",
];

// The tree of a file behind the doctype.
fn tree_of(alloc: Global, body: &str) -> Result<Tree, Fail>
    ensures { IfOk result AreWellFormed }
{
    let file = format!(in alloc; "{DOCTYPE}{body}")?;
    Ok(read_file(alloc, file.as_bytes())?)
}

#[test]
fn the_worked_file_is_written(rt: HostRuntime) -> Result<(), Fail> {
    let alloc = rt.alloc();
    let tree = read_file(alloc, WORKED.as_bytes())?;
    let file = text(alloc, &tree)?;
    assert_eq!(rt; file.as_str(), WRITTEN);
    Ok(())
}

// What is written of a tree is read as the same tree.
fn expect_read_back(rt: &impl Abort, alloc: Global, body: &str) -> Result<(), Fail> {
    let tree = tree_of(alloc, body)?;
    let file = text(alloc, &tree)?;
    let told = shown(alloc, MICROS_PER_SECOND, &tree)?;
    expect_tree(rt, alloc, file.as_str().as_bytes(), told.as_str())
}

#[test]
fn what_is_written_is_read_back(rt: HostRuntime) -> Result<(), Fail> {
    for body in BODIES {
        expect_read_back(&rt, rt.alloc(), body)?;
    }
    Ok(())
}
