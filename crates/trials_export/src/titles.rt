// Titles as a script gives them, and as they are written.
use crate::desks::expect_lines;
use std::alloc::Global;
use std::test::Fail;
use trials_desks::{done, new_store};

// The text of a title in a line of a script, and the written form.
const TITLES: &[(&str, &str)] = &[
    ("<b>&\"c\"'d'", "&lt;b&gt;&amp;&quot;c&quot;&#39;d&#39;"),
    ("&amp;&#32;", "&amp;amp;&amp;#32;"),
    (
        "</H3><HR></DL><!--",
        "&lt;/H3&gt;&lt;HR&gt;&lt;/DL&gt;&lt;!--",
    ),
    // TAB, LF, CR, FF and a backslash.
    ("a\\tb\\nc\\rd\x0ce\\\\t", "a&#9;b&#10;c&#13;d&#12;e\\t"),
    ("\\n\\n", "&#10;&#10;"),
    // Blanks at both ends, of one end, and alone.
    ("  a  b  ", "&#32; a  b &#32;"),
    (" é", "&#32;é"),
    ("é ", "é&#32;"),
    ("", ""),
    (" ", "&#32;"),
    ("  ", "&#32;&#32;"),
    ("   ", "&#32; &#32;"),
    ("\\t \\t", "&#9; &#9;"),
    (" \\t ", "&#32;&#9;&#32;"),
    // What is white space elsewhere.
    (
        "\x0b\u{85}\u{a0}x\u{2028}\u{3000}",
        "\x0b\u{85}\u{a0}x\u{2028}\u{3000}",
    ),
    // The first and the last characters of one, two, three and four bytes.
    ("\0\u{feff}\0", "\0\u{feff}\0"),
    ("\u{feff}", "\u{feff}"),
    (
        "\u{1}\u{7f}\u{80}\u{7ff}\u{800}\u{d7ff}",
        "\u{1}\u{7f}\u{80}\u{7ff}\u{800}\u{d7ff}",
    ),
    (
        "\u{e000}\u{ffff}\u{10000}\u{10ffff}",
        "\u{e000}\u{ffff}\u{10000}\u{10ffff}",
    ),
    ("\u{10ffff} \u{80}", "\u{10ffff} \u{80}"),
];

// A script that makes a folder of the menu for each title, and the lines that are said of them.
fn folders(alloc: Global) -> Result<(String, String), Fail> {
    let mut script = String::new(alloc);
    let mut lines = String::new(alloc);
    for (title, written) in TITLES {
        write!(script, "folder\t2\tend\t{title}\t0\n")?;
        write!(
            lines,
            "    <DT><H3 ADD_DATE=\"0\" LAST_MODIFIED=\"0\">{written}</H3>\n    \
            <DL><p>\n    </DL><p>\n"
        )?;
    }
    Ok((script, lines))
}

#[test]
fn exports_titles_that_come_back(rt: HostRuntime) -> Result<(), Fail> {
    let alloc = rt.alloc();
    let (script, lines) = folders(alloc)?;
    let desk = new_store(alloc, &[])?;
    let desk = done(alloc, &desk, &["run", "s"], script.as_str().as_bytes())?;
    expect_lines(&rt, alloc, &desk, lines.as_str())?;
    Ok(())
}
