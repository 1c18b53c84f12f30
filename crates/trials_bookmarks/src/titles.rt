// Where titles end, and what their references stand for.
use crate::shown::expect_trees;
use std::test::Fail;

const TITLES: &[(&str, &str)] = &[
    (
        "<A HREF='http://a/'> \t T U\r\n</A>x",
        "|m0b[T U] http://a/",
    ),
    ("<A HREF='http://a/'>a<b>B</b>c</A>", "|m0b[aBc] http://a/"),
    // The tags at which a title ends, and two at which it does not.
    ("<A HREF='http://a/'>a</H3>b", "|m0b[a] http://a/"),
    ("<A HREF='http://a/'>a<DT>b", "|m0b[a] http://a/"),
    ("<A HREF='http://a/'>a<DD>b", "|m0b[a] http://a/"),
    ("<A HREF='http://a/'>a<HR>b", "|m0b[a] http://a/|m0s[]"),
    ("<A HREF='http://a/'>a<DL>b", "|m0b[a] http://a/"),
    ("<A HREF='http://a/'>a</DL>b", "|m0b[a] http://a/"),
    ("<A HREF='http://a/'>a<H3>b", "|m0b[a] http://a/|m0f[b]"),
    (
        "<A HREF='http://a/'>a<A HREF='http://b/'>b",
        "|m0b[a] http://a/|m0b[b] http://b/",
    ),
    ("<A HREF='http://a/'>a<A>b", "|m0b[a] http://a/|skipped 1"),
    ("<A HREF='http://a/'>a</DT>b", "|m0b[ab] http://a/"),
    ("<A HREF='http://a/'>a</HR>b", "|m0b[ab] http://a/"),
    ("<H3>é</h3>x", "|m0f[é]"),
    (
        "x<H3>a</H3>y<A HREF='http://a/'>b</A>z",
        "|m0f[a]|m0b[b] http://a/",
    ),
    // Each reference is decoded once, after the blanks at both ends are cut.
    (
        "<A HREF='http://a/'>&amp;lt;&#38;amp;",
        "|m0b[&lt;&amp;] http://a/",
    ),
    ("<A HREF='http://a/'>&#32;a&#9;</A>", "|m0b[ a\t] http://a/"),
    ("<A HREF='http://a/'> &#32; </A>", "|m0b[ ] http://a/"),
    ("<A HREF='http://a/'>&lt;b&gt;</A>", "|m0b[<b>] http://a/"),
    (
        "<A HREF='http://a/'>&quot;&apos;&#39;",
        "|m0b[\"''] http://a/",
    ),
    (
        "<A HREF='http://a/'>&#233;&#xe9;&#xE9;&#00233;",
        "|m0b[éééé] http://a/",
    ),
    (
        "<A HREF='http://a/'>&#x1F600;&#128512;",
        "|m0b[😀😀] http://a/",
    ),
    (
        "<A HREF='http://a/'>&#127;&#128;&#2047;&#2048;",
        "|m0b[\u{7f}\u{80}\u{7ff}\u{800}] http://a/",
    ),
    (
        "<A HREF='http://a/'>&#65535;&#65536;&#1114111;",
        "|m0b[\u{ffff}\u{10000}\u{10ffff}] http://a/",
    ),
    ("<A HREF='http://a/'>&#0;", "|m0b[\0] http://a/"),
    // A tag within what would be one.
    ("<A HREF='http://a/'>a&<b>amp;", "|m0b[a&] http://a/"),
    // References that are none.
    (
        "<A HREF='http://a/'>&nbsp;&AMP;&amp &;&",
        "|m0b[&nbsp;&AMP;&amp &;&] http://a/",
    ),
    (
        "<A HREF='http://a/'>&#;&#x;&#-1;&#+1;&#1",
        "|m0b[&#;&#x;&#-1;&#+1;&#1] http://a/",
    ),
    (
        "<A HREF='http://a/'>&#XE9;&#xD800;&#57343;",
        "|m0b[&#XE9;&#xD800;&#57343;] http://a/",
    ),
    (
        "<A HREF='http://a/'>&#1114112;&#4294967361;",
        "|m0b[&#1114112;&#4294967361;] http://a/",
    ),
    (
        "<A HREF='http://a/'>&#99999999999999999999;",
        "|m0b[&#99999999999999999999;] http://a/",
    ),
];

#[test]
fn titles_end_and_are_decoded(rt: HostRuntime) -> Result<(), Fail> {
    expect_trees(&rt, rt.alloc(), TITLES)
}
