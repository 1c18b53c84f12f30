// Stores, and what an export says of their bookmarks. All was worked out by hand.
use crate::desks::{DOCTYPE, expect_lines, imported};
use pl_desk::MemDesk;
use std::alloc::Global;
use std::process::Abort;
use std::test::Fail;
use trials_desks::{done, said_text};

// The body of a bookmark file and a script, by which a new store is made, and what stands between
// the header and the last line of what is said.
const STORES: &[(&str, &str, &str)] = &[
    // All four roots, with a folder that has no child and a separator.
    (
        "",
        "bookmark\t6\t0\thttps://o.example/\tO\t4000000\nseparator\t5\tend\t3000000\n\
         folder\t3\tend\tT\t2000000\nbookmark\t2\tend\thttps://m.example/\tM\t1000000\n",
        "    <DT><A HREF=\"https://m.example/\" ADD_DATE=\"1\" LAST_MODIFIED=\"1\">M</A>\n    \
         <DT><H3 ADD_DATE=\"0\" LAST_MODIFIED=\"0\" \
         PERSONAL_TOOLBAR_FOLDER=\"true\">Bookmarks Toolbar</H3>\n    \
         <DL><p>\n        \
         <DT><H3 ADD_DATE=\"2\" LAST_MODIFIED=\"2\">T</H3>\n        \
         <DL><p>\n        </DL><p>\n    \
         </DL><p>\n    \
         <DT><H3 ADD_DATE=\"0\" LAST_MODIFIED=\"0\" \
         UNFILED_BOOKMARKS_FOLDER=\"true\">Other Bookmarks</H3>\n    \
         <DL><p>\n        \
         <HR>\n    \
         </DL><p>\n    \
         <DT><H3 ADD_DATE=\"0\" LAST_MODIFIED=\"0\" \
         MOBILE_BOOKMARKS_FOLDER=\"true\">Mobile Bookmarks</H3>\n    \
         <DL><p>\n        \
         <DT><A HREF=\"https://o.example/\" ADD_DATE=\"4\" LAST_MODIFIED=\"4\">O</A>\n    \
         </DL><p>\n",
    ),
    // Lists that end one and three at a time.
    (
        "<H3 ADD_DATE='1' LAST_MODIFIED='2'>1<DL><H3>2<DL><HR></DL>\
         <A HREF='https://a.example/' ADD_DATE='5' LAST_MODIFIED='4'>3</DL><HR>",
        "folder\t6\tend\tx\t0\nfolder\t12\tend\ty\t0\nfolder\t13\tend\tz\t0\n",
        "    <DT><H3 ADD_DATE=\"1\" LAST_MODIFIED=\"2\">1</H3>\n    \
         <DL><p>\n        \
         <DT><H3 ADD_DATE=\"0\" LAST_MODIFIED=\"0\">2</H3>\n        \
         <DL><p>\n            \
         <HR>\n        \
         </DL><p>\n        \
         <DT><A HREF=\"https://a.example/\" ADD_DATE=\"5\" LAST_MODIFIED=\"4\">3</A>\n    \
         </DL><p>\n    \
         <HR>\n    \
         <DT><H3 ADD_DATE=\"0\" LAST_MODIFIED=\"0\" \
         MOBILE_BOOKMARKS_FOLDER=\"true\">Mobile Bookmarks</H3>\n    \
         <DL><p>\n        \
         <DT><H3 ADD_DATE=\"0\" LAST_MODIFIED=\"0\">x</H3>\n        \
         <DL><p>\n            \
         <DT><H3 ADD_DATE=\"0\" LAST_MODIFIED=\"0\">y</H3>\n            \
         <DL><p>\n                \
         <DT><H3 ADD_DATE=\"0\" LAST_MODIFIED=\"0\">z</H3>\n                \
         <DL><p>\n                </DL><p>\n            \
         </DL><p>\n        \
         </DL><p>\n    \
         </DL><p>\n",
    ),
    // The last and the first microsecond of a second, and the last of all dates.
    (
        "",
        "bookmark\t2\tend\tabout:blank\ta\t999999\nretitle\t7\tb\t1000000\n\
         folder\t2\tend\tc\t253402300799999999\nretitle\t8\td\t1999999\n",
        "    <DT><A HREF=\"about:blank\" ADD_DATE=\"0\" LAST_MODIFIED=\"1\">b</A>\n    \
         <DT><H3 ADD_DATE=\"253402300799\" LAST_MODIFIED=\"1\">d</H3>\n    \
         <DL><p>\n    </DL><p>\n",
    ),
    // A page with two bookmarks, one that has a tag and no bookmark, and one that was visited.
    (
        "",
        "visit\thttps://v.example/\t2\t0\ntag\thttps://t.example/\tRed\t0\n\
         bookmark\t2\tend\thttps://a.example/\tone\t0\ntitle\thttps://a.example/\tPage\n\
         tag\thttps://a.example/\tRED\t0\nbookmark\t5\tend\thttps://a.example/\ttwo\t1000000\n",
        "    <DT><A HREF=\"https://a.example/\" ADD_DATE=\"0\" LAST_MODIFIED=\"0\" \
         TAGS=\"Red\">one</A>\n    \
         <DT><H3 ADD_DATE=\"0\" LAST_MODIFIED=\"0\" \
         UNFILED_BOOKMARKS_FOLDER=\"true\">Other Bookmarks</H3>\n    \
         <DL><p>\n        \
         <DT><A HREF=\"https://a.example/\" ADD_DATE=\"1\" LAST_MODIFIED=\"1\" \
         TAGS=\"Red\">two</A>\n    \
         </DL><p>\n",
    ),
    // Tags by their folds: that of the sharp s is two letters.
    (
        "<A HREF='https://t.example/' TAGS='Zed,É,&apos;s&apos;,&lt;t&gt;,ß,st'>t",
        "tag\thttps://t.example/\t a & b \t0\ntag\thttps://t.example/\tapple\t0\n\
         tag\thttps://t.example/\t\"q\"\t0\ntag\thttps://t.example/\t&\t0\n\
         tag\thttps://t.example/\tin\\tner\t0\n",
        "    <DT><A HREF=\"https://t.example/\" ADD_DATE=\"0\" LAST_MODIFIED=\"0\" \
         TAGS=\"&quot;q&quot;,&amp;,&#39;s&#39;,&lt;t&gt;,a &amp; b,apple,in&#9;ner,ß,st,Zed,É\"\
         >t</A>\n",
    ),
    // Addresses: a URL of a scheme without an authority keeps its marks.
    (
        "<A HREF=\"https://a.example/it's?x=1&amp;amp=2#&lt;z&gt;&quot;\">a",
        "bookmark\t2\tend\tjavascript:f(\"<a>&'b'\")\tb\t0\n",
        "    <DT><A HREF=\"https://a.example/it&#39;s?x=1&amp;amp=2#%3Cz%3E%22\" \
         ADD_DATE=\"0\" LAST_MODIFIED=\"0\">a</A>\n    \
         <DT><A HREF=\"javascript:f(&quot;&lt;a&gt;&amp;&#39;b&#39;&quot;)\" \
         ADD_DATE=\"0\" LAST_MODIFIED=\"0\">b</A>\n",
    ),
    // What a file says of titles, dates and tags, and a script of the tags behind it.
    (
        "<A HREF='https://a.example' ICON='i' ADD_DATE='-1' LAST_MODIFIED='7' TAGS='x, X ,,y'> \
         &#9;&#32;x&#0;&#xFEFF;&#x10FFFF;&#xD800;&#12;\n</A><H3>&#13; <i>a</i> &nbsp;\t</H3>",
        "untag\thttps://a.example/\tX\n",
        "    <DT><A HREF=\"https://a.example/\" ADD_DATE=\"0\" LAST_MODIFIED=\"7\" \
         TAGS=\"y\">&#9; x\0\u{feff}\u{10ffff}&amp;#xD800;&#12;</A>\n    \
         <DT><H3 ADD_DATE=\"0\" LAST_MODIFIED=\"0\">&#13; a &amp;nbsp;</H3>\n    \
         <DL><p>\n    </DL><p>\n",
    ),
    // Items that were moved, retitled and removed, and a tag that is gone.
    (
        "",
        "folder\t2\tend\tF\t0\nbookmark\t7\tend\thttps://a.example/\tA\t1000000\n\
         separator\t7\t0\t0\nbookmark\t2\t0\thttps://b.example/\tB\t2000000\n\
         move\t8\t3\tend\t3000000\ntag\thttps://b.example/\tgone\t0\n\
         retitle\t10\tB2\t4000000\nuntag\thttps://b.example/\tgone\n\
         folder\t7\tend\tG\t5000000\nbookmark\t13\tend\thttps://c.example/\tC\t6000000\n\
         remove\t13\nmove\t9\t2\tend\t7000000\nretitle\t8\tA2\t0\n",
        "    <DT><A HREF=\"https://b.example/\" ADD_DATE=\"2\" LAST_MODIFIED=\"4\">B2</A>\n    \
         <DT><H3 ADD_DATE=\"0\" LAST_MODIFIED=\"0\">F</H3>\n    \
         <DL><p>\n    </DL><p>\n    \
         <HR>\n    \
         <DT><H3 ADD_DATE=\"0\" LAST_MODIFIED=\"0\" \
         PERSONAL_TOOLBAR_FOLDER=\"true\">Bookmarks Toolbar</H3>\n    \
         <DL><p>\n        \
         <DT><A HREF=\"https://a.example/\" ADD_DATE=\"1\" LAST_MODIFIED=\"0\">A2</A>\n    \
         </DL><p>\n",
    ),
];

// A new store after the import of a file and a script behind it, whose lines are all done.
fn made(rt: &impl Abort, alloc: Global, file: &str, script: &str) -> Result<MemDesk, Fail> {
    let file = format!(in alloc; "{DOCTYPE}{file}")?;
    let desk = imported(alloc, file.as_str().as_bytes())?;
    let desk = done(alloc, &desk, &["run", "s"], script.as_bytes())?;
    assert!(rt; !said_text(&desk).contains("refused"), "{script}");
    Ok(desk)
}

#[test]
fn exports_stores_that_come_back(rt: HostRuntime) -> Result<(), Fail> {
    let alloc = rt.alloc();
    for (file, script, lines) in STORES {
        let desk = made(&rt, alloc, file, script)?;
        expect_lines(&rt, alloc, &desk, lines)?;
    }
    Ok(())
}
