// A thousand folders one within another, and the longest title.
use crate::desks::{DOCTYPE, expect_lines, exported, imported};
use std::test::Fail;
use trials_desks::{done, new_store, said_text};

const DEPTH: usize = 1_000;

// The header has 162 bytes and the last line 9. A folder has a heading of 46 bytes, the start of
// its list of 8 and the end of 9, each behind four spaces for each level: 63 times 1,000 and 12
// times the sum up to 1,000.
const LENGTH: usize = 162 + 63_000 + 12 * 500_500 + 9;

// The innermost heading stands behind the header and 999 headings with their starts: 54 times 999
// and 8 times the sum up to 999.
const INNERMOST: usize = 162 + 53_946 + 8 * 499_500;

#[test]
fn exports_deep_folders_that_come_back(rt: HostRuntime) -> Result<(), Fail> {
    let alloc = rt.alloc();
    let outer = "<H3>a<DL>".repeat(alloc, DEPTH - 1)?;
    let file = format!(in alloc; "{DOCTYPE}{outer}<H3>z")?;
    let desk = imported(alloc, file.as_str().as_bytes())?;
    let desk = exported(alloc, &desk)?;
    let text = said_text(&desk);
    assert_eq!(rt; text.len(), LENGTH);
    let spaces = " ".repeat(alloc, 4 * DEPTH)?;
    let fewer = " ".repeat(alloc, 4 * (DEPTH - 1))?;
    let innermost = format!(in alloc;
        "{spaces}<DT><H3 ADD_DATE=\"0\" LAST_MODIFIED=\"0\">z</H3>\n{spaces}<DL><p>\n\
        {spaces}</DL><p>\n{fewer}</DL><p>\n"
    )?;
    let behind = text.get(INNERMOST..).ok_or("no innermost folder")?;
    assert!(rt; behind.starts_with(innermost.as_str()));
    let next = imported(alloc, text.as_bytes())?;
    let next = exported(alloc, &next)?;
    assert!(rt; said_text(&next) == text);
    Ok(())
}

// A title of 4,096 bytes, of which each is written as five.
#[test]
fn exports_long_titles_that_come_back(rt: HostRuntime) -> Result<(), Fail> {
    let alloc = rt.alloc();
    let title = "&".repeat(alloc, 4_096)?;
    let written = "&amp;".repeat(alloc, 4_096)?;
    let script = format!(in alloc; "folder\t2\tend\t{title}\t0\n")?;
    let lines = format!(in alloc;
        "    <DT><H3 ADD_DATE=\"0\" LAST_MODIFIED=\"0\">{written}</H3>\n    \
        <DL><p>\n    </DL><p>\n"
    )?;
    let desk = new_store(alloc, &[])?;
    let desk = done(alloc, &desk, &["run", "s"], script.as_str().as_bytes())?;
    expect_lines(&rt, alloc, &desk, lines.as_str())?;
    Ok(())
}
