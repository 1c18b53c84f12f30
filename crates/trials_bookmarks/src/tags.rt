// How tags, comments and text are told apart.
use crate::shown::expect_trees;
use std::test::Fail;

const TAGS: &[(&str, &str)] = &[
    ("", ""),
    ("<A HREF=\"http://a/\">T</A>", "|m0b[T] http://a/"),
    ("<a href='http://a/'>T</a>", "|m0b[T] http://a/"),
    ("<A HREF=http://a/>T</A>", "|m0b[T] http://a/"),
    ("<A HREF = \"http://a/\" >T</A>", "|m0b[T] http://a/"),
    ("<A\nHREF\r\n=\t'http://a/'\x0c>T</A>", "|m0b[T] http://a/"),
    // `/` and `=` that stand between attributes, and attributes without a value.
    ("<A/HREF='http://a/'/>T", "|m0b[T] http://a/"),
    ("<A =HREF='http://a/'>T", "|m0b[T] http://a/"),
    ("<A HREF='http://a/'x>T", "|m0b[T] http://a/"),
    ("<A x HREF='http://a/'>T", "|m0b[T] http://a/"),
    ("<A HREF=http://a/x/y z>T", "|m0b[T] http://a/x/y"),
    ("<A HREF='http://a/'TAGS=\"r\">T", "|m0b[T] http://a/ #r"),
    ("<A HREF='http://a/?x>y'>T", "|m0b[T] http://a/?x%3Ey"),
    // The first of its name counts, also without a value.
    (
        "<A HREF='http://a/' HREF='http://b/'>T",
        "|m0b[T] http://a/",
    ),
    (
        "<A HREF='http://a/' href='http://b/'>T",
        "|m0b[T] http://a/",
    ),
    ("<A HREF HREF='http://a/'>T", "|skipped 1"),
    ("<A HREF= >T", "|skipped 1"),
    // Tags that the text's end cuts off.
    ("<A HREF='http://a/>T</A>", ""),
    ("<A HREF='http://a/'", ""),
    ("<A HREF='http://a/'>T<B", "|m0b[T] http://a/"),
    ("<A HREF='http://a/'>T<B c='>", "|m0b[T] http://a/"),
    // `<` that begins nothing is text.
    ("<A HREF='http://a/'>T<", "|m0b[T<] http://a/"),
    ("<A HREF='http://a/'>1 < 2 <3", "|m0b[1 < 2 <3] http://a/"),
    ("<A HREF='http://a/'><<</A>", "|m0b[<<] http://a/"),
    // What is passed over.
    ("<A HREF='http://a/'>T</>U", "|m0b[TU] http://a/"),
    ("<A HREF='http://a/'>T</ A>U", "|m0b[TU] http://a/"),
    ("<A HREF='http://a/'>T</", "|m0b[T] http://a/"),
    (
        "<A HREF='http://a/'>T<!x>U<!-- > -->V",
        "|m0b[TUV] http://a/",
    ),
    ("<A HREF='http://a/'>T<!--->U-->V", "|m0b[TV] http://a/"),
    ("<A HREF='http://a/'>T<!-- x", "|m0b[T] http://a/"),
    ("<A HREF='http://a/'>T<!x", "|m0b[T] http://a/"),
    // Names go up to a blank, `/` or `>`.
    ("<AB HREF='http://a/'>T", ""),
    ("<A-HREF='http://a/'>T", ""),
    ("<p><A HREF='http://a/'></p>", "|m0b[] http://a/"),
];

#[test]
fn tags_and_text_are_told_apart(rt: HostRuntime) -> Result<(), Fail> {
    expect_trees(&rt, rt.alloc(), TAGS)
}
