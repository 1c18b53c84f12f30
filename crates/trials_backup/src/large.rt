// A thousand folders one within another, and the longest title.
use crate::desks::{expect_roots, made};
use std::test::Fail;

const DEPTH: usize = 1_000;

#[test]
fn backs_up_deep_folders(rt: HostRuntime) -> Result<(), Fail> {
    let alloc = rt.alloc();
    let outer = "<H3>a<DL>".repeat(alloc, DEPTH - 1)?;
    let file = format!(in alloc; "{outer}<H3>z")?;
    let desk = made(alloc, file.as_str(), "")?;
    let starts = "{\"children\":[".repeat(alloc, DEPTH)?;
    let ends = "],\"dateAdded\":0,\"lastModified\":0,\"title\":\"a\",\
        \"type\":\"text/x-moz-place-container\",\"typeCode\":2}"
        .repeat(alloc, DEPTH - 1)?;
    let menu = format!(in alloc;
        "{starts}],\"dateAdded\":0,\"lastModified\":0,\"title\":\"z\",\
        \"type\":\"text/x-moz-place-container\",\"typeCode\":2}}{ends}"
    )?;
    expect_roots(&rt, alloc, &desk, (menu.as_str(), "", "", ""))?;
    Ok(())
}

// A title of 4,096 bytes, of which each is written as six.
#[test]
fn backs_up_the_longest_title(rt: HostRuntime) -> Result<(), Fail> {
    let alloc = rt.alloc();
    let title = "\x01".repeat(alloc, 4_096)?;
    let written = "\\u0001".repeat(alloc, 4_096)?;
    let script = format!(in alloc; "bookmark\t2\tend\tabout:blank\t{title}\t0\n")?;
    let menu = format!(in alloc;
        "{{\"dateAdded\":0,\"lastModified\":0,\"title\":\"{written}\",\
        \"type\":\"text/x-moz-place\",\"typeCode\":1,\"uri\":\"about:blank\"}}"
    )?;
    let desk = made(alloc, "", script.as_str())?;
    expect_roots(&rt, alloc, &desk, (menu.as_str(), "", "", ""))?;
    Ok(())
}
