// Files in the form that browsers and bookmark tools write.
use crate::shown::expect_tree;
use std::test::Fail;

// Firefox: roots in the menu, descriptions, separators and what follows them on one line, keywords.
const FIREFOX: &str = "<!DOCTYPE NETSCAPE-Bookmark-file-1>\n\
    <!-- This is an automatically generated file.\n     DO NOT EDIT! -->\n\
    <META HTTP-EQUIV=\"Content-Type\" CONTENT=\"text/html; charset=UTF-8\">\n\
    <meta http-equiv=\"Content-Security-Policy\"\n      \
    content=\"default-src 'self'; script-src 'none'; img-src data: *; object-src 'none'\"></meta>\n\
    <TITLE>Bookmarks</TITLE>\n<H1>Bookmarks Menu</H1>\n\n<DL><p>\n    \
    <DT><H3 ADD_DATE=\"1611000000\" LAST_MODIFIED=\"1611000050\">Mozilla Firefox</H3>\n    \
    <DL><p>\n        \
    <DT><A HREF=\"https://support.example/\" ADD_DATE=\"1611000001\" LAST_MODIFIED=\"1611000002\" \
    ICON_URI=\"fake-favicon-uri:https://support.example/\" \
    ICON=\"data:image/png;base64,iVBORw0KGgo=\">Get Help</A>\n    \
    </DL><p>\n    \
    <HR>    <DT><A HREF=\"https://a.example/?q=1&amp;r=2\" ADD_DATE=\"1611000003\" \
    LAST_MODIFIED=\"1611000003\" SHORTCUTURL=\"a\" TAGS=\"daily,news\">A &amp; &#39;B&#39;</A>\n\
    <DD>What it is about\n    \
    <DT><H3 ADD_DATE=\"1611000000\" LAST_MODIFIED=\"1611000060\" \
    PERSONAL_TOOLBAR_FOLDER=\"true\">Bookmarks Toolbar</H3>\n\
    <DD>Add bookmarks to this folder to see them displayed on the Bookmarks Toolbar\n    \
    <DL><p>\n        \
    <DT><A HREF=\"place:sort=8&maxResults=10\" ADD_DATE=\"1611000004\" \
    LAST_MODIFIED=\"1611000005\">Most Visited</A>\n    \
    </DL><p>\n    \
    <DT><H3 ADD_DATE=\"1611000000\" LAST_MODIFIED=\"1611000060\" \
    UNFILED_BOOKMARKS_FOLDER=\"true\">Other Bookmarks</H3>\n    \
    <DL><p>\n        \
    <DT><A HREF=\"https://b.example/\" ADD_DATE=\"1611000006\">B</A>\n    \
    </DL><p>\n</DL>\n";

const FIREFOX_TREE: &str = "|m0f[Mozilla Firefox] +1611000000 ~1611000050\
    |m1b[Get Help] https://support.example/ +1611000001 ~1611000002\
    |m0s[]\
    |m0b[A & 'B'] https://a.example/?q=1&r=2 +1611000003 #daily,news\
    |t0b[Most Visited] place:sort=8&maxResults=10 +1611000004 ~1611000005\
    |u0b[B] https://b.example/ +1611000006";

// Chromium: the bar first, other bookmarks beside it, empty folders, CR and LF.
const CHROMIUM: &str = "<!DOCTYPE NETSCAPE-Bookmark-file-1>\r\n\
    <!-- This is an automatically generated file.\r\n     It will be read and overwritten.\r\n     \
    DO NOT EDIT! -->\r\n\
    <META HTTP-EQUIV=\"Content-Type\" CONTENT=\"text/html; charset=UTF-8\">\r\n\
    <TITLE>Bookmarks</TITLE>\r\n<H1>Bookmarks</H1>\r\n<DL><p>\r\n    \
    <DT><H3 ADD_DATE=\"1500000000\" LAST_MODIFIED=\"1500000100\" \
    PERSONAL_TOOLBAR_FOLDER=\"true\">Bookmarks bar</H3>\r\n    <DL><p>\r\n        \
    <DT><A HREF=\"https://b.example/\" ADD_DATE=\"1500000001\" \
    ICON=\"data:image/png;base64,AAAA\">B &lt;b&gt;</A>\r\n        \
    <DT><H3 ADD_DATE=\"1500000002\" LAST_MODIFIED=\"0\">Empty</H3>\r\n        \
    <DL><p>\r\n        </DL><p>\r\n        \
    <DT><A HREF=\"https://c.example/\" ADD_DATE=\"1500000003\"></A>\r\n    \
    </DL><p>\r\n    \
    <DT><A HREF=\"https://d.example/\" ADD_DATE=\"1500000004\">D</A>\r\n</DL><p>\r\n";

const CHROMIUM_TREE: &str = "|m0b[D] https://d.example/ +1500000004\
    |t0b[B <b>] https://b.example/ +1500000001\
    |t0f[Empty] +1500000002 ~0\
    |t0b[] https://c.example/ +1500000003";

// Safari: no list around all, no dates, headings with an attribute that has no value, and an end of
// HTML.
const SAFARI: &str = "<!DOCTYPE NETSCAPE-Bookmark-file-1>\n\t<HTML>\n\t\
    <META HTTP-EQUIV=\"Content-Type\" CONTENT=\"text/html; charset=UTF-8\">\n\t\
    <Title>Bookmarks</Title>\n\t<H1>Bookmarks</H1>\n\t\
    <DT><H3 FOLDED>Favourites</H3>\n\t<DL><p>\n\t\t\
    <DT><A HREF=\"https://e.example/\">E</A>\n\t\t\
    <DT><H3 FOLDED>News</H3>\n\t\t<DL><p>\n\t\t\t\
    <DT><A HREF=\"https://f.example/\">F</A>\n\t\t</DL><p>\n\t\t\
    <DT><A HREF=\"https://g.example/\">G</A>\n\t</DL><p>\n\t\
    <DT><H3 FOLDED id=\"com.apple.ReadingList\">Reading List</H3>\n\t<DL><p>\n\t</DL><p>\n\t\
    </HTML>\n";

const SAFARI_TREE: &str = "|m0f[Favourites]\
    |m1b[E] https://e.example/\
    |m1f[News]\
    |m2b[F] https://f.example/\
    |m1b[G] https://g.example/\
    |m0f[Reading List]";

// buku: one folder with tags and descriptions.
const BUKU: &str = "<!DOCTYPE NETSCAPE-Bookmark-file-1>\n\n\
    <META HTTP-EQUIV=\"Content-Type\" CONTENT=\"text/html; charset=UTF-8\">\n\
    <TITLE>Bookmarks</TITLE>\n<H1>Bookmarks</H1>\n\n<DL><p>\n    \
    <DT><H3 ADD_DATE=\"1700000000\" LAST_MODIFIED=\"1700000000\" \
    PERSONAL_TOOLBAR_FOLDER=\"true\">Buku bookmarks</H3>\n    <DL><p>\n        \
    <DT><A HREF=\"https://h.example/\" ADD_DATE=\"1700000000\" LAST_MODIFIED=\"1700000000\" \
    TAGS=\"alpha,beta gamma\">H</A>\n        <DD>A line\nand another\n        \
    <DT><A HREF=\"https://i.example/\" ADD_DATE=\"1700000000\" \
    LAST_MODIFIED=\"1700000000\">I</A>\n    \
    </DL><p>\n</DL><p>";

const BUKU_TREE: &str = "|t0b[H] https://h.example/ +1700000000 #alpha,beta gamma\
    |t0b[I] https://i.example/ +1700000000";

#[test]
fn files_of_browsers_are_read(rt: HostRuntime) -> Result<(), Fail> {
    let alloc = rt.alloc();
    expect_tree(&rt, alloc, FIREFOX.as_bytes(), FIREFOX_TREE)?;
    expect_tree(&rt, alloc, CHROMIUM.as_bytes(), CHROMIUM_TREE)?;
    expect_tree(&rt, alloc, SAFARI.as_bytes(), SAFARI_TREE)?;
    expect_tree(&rt, alloc, BUKU.as_bytes(), BUKU_TREE)
}
