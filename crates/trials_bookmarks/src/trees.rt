// Which folder is whose, and what stands in the roots.
use crate::shown::expect_trees;
use std::test::Fail;

const TREES: &[(&str, &str)] = &[
    (
        "<H3>f</H3><DL><A HREF='http://a/'>a</A></DL><A HREF='http://b/'>b</A>",
        "|m0f[f]|m1b[a] http://a/|m0b[b] http://b/",
    ),
    // Behind the end of a nested list the one around it goes on.
    (
        "<DL><H3>f</H3><DL><H3>g</H3><DL><HR></DL><HR></DL><HR></DL><HR>",
        "|m0f[f]|m1f[g]|m2s[]|m1s[]|m0s[]|m0s[]",
    ),
    // Ends of lists that are not open, and lists that never end.
    ("</DL></DL><HR>", "|m0s[]"),
    ("<DL><DL><HR></DL></DL></DL><HR>", "|m0s[]|m0s[]"),
    ("<H3>f<DL><HR>", "|m0f[f]|m1s[]"),
    ("<H3>f<DL><H3>g<DL>", "|m0f[f]|m1f[g]"),
    // What stands between a heading and its list.
    ("<H3>f</H3><p><DT><DD>text<DL><HR>", "|m0f[f]|m1s[]"),
    ("<H3>f</H3></DL><DL><HR>", "|m0f[f]|m0s[]"),
    ("<H3>f</H3><HR><DL><HR>", "|m0f[f]|m0s[]|m0s[]"),
    (
        "<H3>f</H3><A HREF='x'></A><DL><HR>",
        "|m0f[f]|m0s[]|skipped 1",
    ),
    (
        "<H3>f</H3><A HREF='http://a/'></A><DL><HR>",
        "|m0f[f]|m0b[] http://a/|m0s[]",
    ),
    ("<H3>f</H3><H3>g</H3><DL><HR>", "|m0f[f]|m0f[g]|m1s[]"),
    // A list without a heading goes on with the folder that is open.
    (
        "<H3>f</H3><DL><DL><HR></DL><HR></DL><HR>",
        "|m0f[f]|m1s[]|m1s[]|m0s[]",
    ),
    // Headings that stand for roots, in the menu root alone.
    (
        "<H3 PERSONAL_TOOLBAR_FOLDER='true'>x</H3><DL><HR></DL><HR>",
        "|m0s[]|t0s[]",
    ),
    ("<H3 UNFILED_BOOKMARKS_FOLDER=TRUE>x</H3><DL><HR>", "|u0s[]"),
    (
        "<H3 MOBILE_BOOKMARKS_FOLDER='True'>x</H3><DL><HR>",
        "|o0s[]",
    ),
    ("<H3 personal_toolbar_folder='&#116;rue'><DL><HR>", "|t0s[]"),
    (
        "<H3 MOBILE_BOOKMARKS_FOLDER='true' PERSONAL_TOOLBAR_FOLDER='true'><DL><HR>",
        "|t0s[]",
    ),
    (
        "<H3 PERSONAL_TOOLBAR_FOLDER='false' UNFILED_BOOKMARKS_FOLDER='true'><DL><HR>",
        "|u0s[]",
    ),
    ("<H3 PERSONAL_TOOLBAR_FOLDER='1'>x<DL><HR>", "|m0f[x]|m1s[]"),
    (
        "<H3>f<DL><H3 PERSONAL_TOOLBAR_FOLDER='true'>x</H3><DL><HR>",
        "|m0f[f]|m1f[x]|m2s[]",
    ),
    (
        "<DL><H3 PERSONAL_TOOLBAR_FOLDER='true'>x<DL><HR></DL></DL>",
        "|t0s[]",
    ),
    (
        "<H3 PERSONAL_TOOLBAR_FOLDER='true'>x<DL><H3 UNFILED_BOOKMARKS_FOLDER='true'>y<DL><HR>",
        "|t0f[y]|t1s[]",
    ),
    (
        "<H3 PERSONAL_TOOLBAR_FOLDER='true'><DL><H3>f<DL><HR></DL></DL>\
         <H3 PERSONAL_TOOLBAR_FOLDER='true'><DL><A HREF='http://a/'>a</DL>",
        "|t0f[f]|t1s[]|t0b[a] http://a/",
    ),
    // Separators have nothing but their place, and other tags make nothing.
    ("<HR ADD_DATE='5' TAGS='r'>title", "|m0s[]"),
    ("<H1>Bookmarks</H1><TITLE>x</TITLE><META a=b><HR>", "|m0s[]"),
];

#[test]
fn folders_have_their_children(rt: HostRuntime) -> Result<(), Fail> {
    expect_trees(&rt, rt.alloc(), TREES)
}
