// What an import makes of a store, told by the lines of a script. All was worked out by hand.
use crate::desks::{SAID, goes_on};
use std::alloc::Global;
use std::test::Fail;
use trials_desks::{WORKED, new_store};

const IMPORT: &[&str] = &["import", "s"];

const RUN: &[&str] = &["run", "s"];

// What stands behind the import into a new store. The page of the tagged bookmark is the first one,
// and its items come before those of the toolbar.
const LINES: &[u8] = b"list\t2\nlist\t3\nlist\t13\nlist\t4\nlist\t8\nlist\t10\n\
    page\thttps://c.example/\npage\thttps://a.example/\npage\thttps://b.example/x\nstats\n\
    query\tplace:queryType=1&sort=14\nquery\tplace:queryType=1&sort=11\n\
    folder\t6\tend\tNext\t0\nvisit\thttps://d.example/\t1\t0\n";

const TOLD: &[u8] = b"rows\t1\nbookmark\t7\tD\thttps://c.example/\n\
    rows\t2\nbookmark\t12\tA & B\thttps://a.example/\nfolder\t13\tSub\t\n\
    rows\t1\nbookmark\t14\tB\thttps://b.example/x\n\
    rows\t2\nfolder\t8\tred\t\nfolder\t10\tBlue\t\n\
    rows\t1\nbookmark\t9\t\thttps://c.example/\n\
    rows\t1\nbookmark\t11\t\thttps://c.example/\n\
    page\t1\t140\t0\t-\t0\t0\t1\thttps://c.example/\t\tBlue,red\n\
    page\t2\t140\t0\t-\t0\t0\t1\thttps://a.example/\t\t\n\
    page\t3\t140\t0\t-\t0\t0\t1\thttps://b.example/x\t\t\n\
    stats\tpages\t3\tvisits\t0\titems\t14\torigins\t3\tsum\t420\tslots\t29\n\
    rows\t3\nrow\t14\thttps://b.example/x\tB\t-\t0\t140\t\n\
    row\t12\thttps://a.example/\tA & B\t-\t0\t140\t\n\
    row\t7\thttps://c.example/\tD\t-\t0\t140\tBlue,red\n\
    rows\t3\nrow\t7\thttps://c.example/\tD\t-\t0\t140\tBlue,red\n\
    row\t12\thttps://a.example/\tA & B\t-\t0\t140\t\n\
    row\t14\thttps://b.example/x\tB\t-\t0\t140\t\n\
    item\t15\nvisit\t1\tpage\t4\tfrecency\t100\n";

#[test]
fn imports_into_a_new_store(rt: HostRuntime) -> Result<(), Fail> {
    let alloc = rt.alloc();
    let desk = new_store(alloc, &[])?;
    let desk = goes_on(&rt, alloc, &desk, IMPORT, WORKED.as_bytes(), SAID)?;
    goes_on(&rt, alloc, &desk, RUN, LINES, TOLD)?;
    Ok(())
}

// The page has its tags already, and the rows stand behind those of before.
const AGAIN: &[u8] = b"imported\titems\t4\ttags\t0\tskipped\t1\n";

const AGAIN_LINES: &[u8] = b"list\t2\nlist\t3\nlist\t17\nlist\t8\nstats\n";

const AGAIN_TOLD: &[u8] =
    b"rows\t2\nbookmark\t7\tD\thttps://c.example/\nbookmark\t15\tD\thttps://c.example/\n\
    rows\t4\nbookmark\t12\tA & B\thttps://a.example/\nfolder\t13\tSub\t\n\
    bookmark\t16\tA & B\thttps://a.example/\nfolder\t17\tSub\t\n\
    rows\t1\nbookmark\t18\tB\thttps://b.example/x\n\
    rows\t1\nbookmark\t9\t\thttps://c.example/\n\
    stats\tpages\t3\tvisits\t0\titems\t18\torigins\t3\tsum\t420\tslots\t37\n";

#[test]
fn imports_twice(rt: HostRuntime) -> Result<(), Fail> {
    let alloc = rt.alloc();
    let desk = new_store(alloc, &[])?;
    let desk = goes_on(&rt, alloc, &desk, IMPORT, WORKED.as_bytes(), SAID)?;
    // Without its last line the file says the same.
    let front = WORKED.strip_suffix("</DL><p>\n").ok_or("no last line")?;
    let desk = goes_on(&rt, alloc, &desk, IMPORT, front.as_bytes(), AGAIN)?;
    goes_on(&rt, alloc, &desk, RUN, AGAIN_LINES, AGAIN_TOLD)?;
    Ok(())
}

// A page with a typed visit, a folder of the toolbar, a tag of the file in other letters and a page
// of the file: each is found, and a tag that the page has is passed over.
const BEFORE: &[u8] = b"visit\thttps://a.example/\t2\t0\nfolder\t3\tend\tOld\t0\n\
    tag\thttps://c.example/\tRED\t0\nbookmark\t5\tend\thttps://b.example/x\tB0\t5\n";

const BEFORE_TOLD: &[u8] = b"visit\t1\tpage\t1\tfrecency\t2000\nitem\t7\nok\nitem\t10\n";

const PARTLY: &[u8] = b"imported\titems\t4\ttags\t1\tskipped\t1\n";

const PARTLY_LINES: &[u8] = b"list\t2\nlist\t3\nlist\t15\nlist\t4\nlist\t5\n\
    page\thttps://a.example/\npage\thttps://c.example/\npage\thttps://b.example/x\nstats\n";

const PARTLY_TOLD: &[u8] = b"rows\t1\nbookmark\t11\tD\thttps://c.example/\n\
    rows\t3\nfolder\t7\tOld\t\nbookmark\t14\tA & B\thttps://a.example/\nfolder\t15\tSub\t\n\
    rows\t1\nbookmark\t16\tB\thttps://b.example/x\n\
    rows\t2\nfolder\t8\tRED\t\nfolder\t12\tBlue\t\n\
    rows\t1\nbookmark\t10\tB0\thttps://b.example/x\n\
    page\t1\t2075\t1\t0\t1\t0\t1\thttps://a.example/\t\t\n\
    page\t2\t140\t0\t-\t0\t0\t1\thttps://c.example/\t\tBlue,RED\n\
    page\t3\t140\t0\t-\t0\t0\t1\thttps://b.example/x\t\t\n\
    stats\tpages\t3\tvisits\t1\titems\t16\torigins\t3\tsum\t2355\tslots\t34\n";

#[test]
fn finds_what_is_there(rt: HostRuntime) -> Result<(), Fail> {
    let alloc = rt.alloc();
    let desk = new_store(alloc, &[])?;
    let desk = goes_on(&rt, alloc, &desk, RUN, BEFORE, BEFORE_TOLD)?;
    let desk = goes_on(&rt, alloc, &desk, IMPORT, WORKED.as_bytes(), PARTLY)?;
    goes_on(&rt, alloc, &desk, RUN, PARTLY_LINES, PARTLY_TOLD)?;
    Ok(())
}

// Files that say little: what is said of them, and of two folders what they have then.
const FILES: &[(&str, &str, &str, &str)] = &[
    (
        "",
        "items\t0\ttags\t0\tskipped\t0",
        "rows\t0\n",
        "rows\t0\n",
    ),
    (
        "<A HREF='about:blank'>x",
        "items\t1\ttags\t0\tskipped\t0",
        "rows\t1\nbookmark\t7\tx\tabout:blank\n",
        "rows\t0\n",
    ),
    // One tag for two bookmarks of a page, in two spellings, and one for another page.
    (
        "<A HREF='https://a.example/' TAGS='One,Two'>a<A HREF='https://a.example' TAGS='two,ONE'>b\
        <A HREF='https://b.example/' TAGS='one'>c",
        "items\t3\ttags\t3\tskipped\t0",
        "rows\t3\nbookmark\t7\ta\thttps://a.example/\nbookmark\t12\tb\thttps://a.example/\n\
        bookmark\t13\tc\thttps://b.example/\n",
        "rows\t2\nfolder\t8\tOne\t\nfolder\t10\tTwo\t\n",
    ),
    // Down two folders and up again; a separator keeps its place.
    (
        "<H3>1<DL><H3>2<DL><HR></DL><A HREF='https://a.example/'>3</DL><HR>",
        "items\t5\ttags\t0\tskipped\t0",
        "rows\t2\nfolder\t7\t1\t\nseparator\t11\t\t\n",
        "rows\t0\n",
    ),
];

fn imported(alloc: Global, body: &str) -> Result<String, Fail> {
    Ok(format!(in alloc; "<!DOCTYPE NETSCAPE-Bookmark-file-1>{body}")?)
}

#[test]
fn imports_short_files(rt: HostRuntime) -> Result<(), Fail> {
    let alloc = rt.alloc();
    let desk = new_store(alloc, &[])?;
    for (body, reply, menu, tags) in FILES {
        let text = imported(alloc, body)?;
        let said = format!(in alloc; "imported\t{reply}\n")?;
        let told = format!(in alloc; "{menu}{tags}")?;
        let next = goes_on(&rt, alloc, &desk, IMPORT, text.as_bytes(), said.as_bytes())?;
        goes_on(
            &rt,
            alloc,
            &next,
            RUN,
            b"list\t2\nlist\t4\n",
            told.as_bytes(),
        )?;
    }
    Ok(())
}

// A text, what stands behind it so many times, and what stands behind that; what is said of the
// file, and of the menu then.
const LONG_FILES: &[(&str, &str, usize, &str, &str, &str)] = &[
    (
        "",
        "<DL>",
        100_000,
        "<A HREF=\"https://a.example/\">x",
        "items\t1\ttags\t0\tskipped\t0",
        "rows\t1\nbookmark\t7\tx\thttps://a.example/\n",
    ),
    (
        "",
        "<H3>a<DL>",
        1_000,
        "",
        "items\t1000\ttags\t0\tskipped\t0",
        "rows\t1\nfolder\t7\ta\t\n",
    ),
    // A tag that has no end, and an address that has none.
    (
        "",
        "<A HREF=\"",
        1,
        "",
        "items\t0\ttags\t0\tskipped\t0",
        "rows\t0\n",
    ),
    (
        "<A HREF=\"",
        "x",
        1_000_000,
        "",
        "items\t0\ttags\t0\tskipped\t0",
        "rows\t0\n",
    ),
];

#[test]
fn imports_deep_and_endless_files(rt: HostRuntime) -> Result<(), Fail> {
    let alloc = rt.alloc();
    let desk = new_store(alloc, &[])?;
    for (start, piece, times, end, reply, told) in LONG_FILES {
        let pieces = piece.repeat(alloc, *times)?;
        let body = format!(in alloc; "{start}{pieces}{end}")?;
        let text = imported(alloc, body.as_str())?;
        let said = format!(in alloc; "imported\t{reply}\n")?;
        let next = goes_on(&rt, alloc, &desk, IMPORT, text.as_bytes(), said.as_bytes())?;
        goes_on(&rt, alloc, &next, RUN, b"list\t2\n", told.as_bytes())?;
    }
    Ok(())
}

// A title of 4,097 bytes is cut to 4,096.
#[test]
fn cuts_long_titles(rt: HostRuntime) -> Result<(), Fail> {
    let alloc = rt.alloc();
    let desk = new_store(alloc, &[])?;
    let title = "x".repeat(alloc, 4_097)?;
    let body = format!(in alloc; "<H3>{title}")?;
    let text = imported(alloc, body.as_str())?;
    let said = b"imported\titems\t1\ttags\t0\tskipped\t0\n";
    let next = goes_on(&rt, alloc, &desk, IMPORT, text.as_bytes(), said)?;
    let told = format!(in alloc; "rows\t1\nfolder\t7\t{}\t\n", &title.as_str()[..4_096])?;
    goes_on(&rt, alloc, &next, RUN, b"list\t2\n", told.as_bytes())?;
    Ok(())
}
