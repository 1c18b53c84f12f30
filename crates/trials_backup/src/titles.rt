// Titles as a script gives them, and as they are written.
use crate::desks::{expect_roots, made};
use std::alloc::Global;
use std::test::Fail;

// The text of a title in a line of a script, and the written form.
const TITLES: &[(&str, &str)] = &[
    ("", ""),
    ("  a  b  ", "  a  b  "),
    ("<b>&\"c\"'d'/", "<b>&\\\"c\\\"'d'/"),
    // BS, TAB, LF, FF, CR and a backslash.
    ("a\x08b\\tc\\nd\x0ce\\rf\\\\t", "a\\bb\\tc\\nd\\fe\\rf\\\\t"),
    // The other controls below the space, from the first to the last, and DEL.
    (
        "\0\x01\x07\x0b\x0e\x1b\x1f\x7f",
        "\\u0000\\u0001\\u0007\\u000b\\u000e\\u001b\\u001f\x7f",
    ),
    // What ends a line elsewhere.
    (
        "\u{85}\u{a0}x\u{2028}\u{2029}\u{3000}\u{feff}",
        "\u{85}\u{a0}x\u{2028}\u{2029}\u{3000}\u{feff}",
    ),
    // The first and the last characters of two, three and four bytes, and an emoji of two.
    (
        "\u{80}\u{7ff}\u{800}\u{d7ff}\u{e000}\u{ffff}\u{10000}\u{10ffff}",
        "\u{80}\u{7ff}\u{800}\u{d7ff}\u{e000}\u{ffff}\u{10000}\u{10ffff}",
    ),
    ("\u{1f469}\u{200d}\u{1f680}", "\u{1f469}\u{200d}\u{1f680}"),
];

// A script that makes a folder of the menu for each title, and the values of the menu.
fn folders(alloc: Global) -> Result<(String, String), Fail> {
    let mut script = String::new(alloc);
    let mut values = String::new(alloc);
    let mut comma = "";
    for (title, written) in TITLES {
        write!(script, "folder\t2\tend\t{title}\t7\n")?;
        write!(
            values,
            "{comma}{{\"children\":[],\"dateAdded\":7,\"lastModified\":7,\"title\":\"{written}\",\
            \"type\":\"text/x-moz-place-container\",\"typeCode\":2}}"
        )?;
        comma = ",";
    }
    Ok((script, values))
}

#[test]
fn backs_up_titles(rt: HostRuntime) -> Result<(), Fail> {
    let alloc = rt.alloc();
    let (script, values) = folders(alloc)?;
    let desk = made(alloc, "", script.as_str())?;
    expect_roots(&rt, alloc, &desk, (values.as_str(), "", "", ""))?;
    Ok(())
}
