// What a restore makes of a store, told by the lines of a script, and backups that come back. All
// was worked out by hand.
use crate::desks::{AFTER, BACKUP, BEFORE, RESTORE, RUN, SAID, first_store, goes_on};
use std::alloc::Global;
use std::process::Abort;
use std::test::Fail;
use trials_desks::{WORKED, done, new_store, run_on};

// The page with a visit stays, the one that had a bookmark alone goes, and the one that comes back
// keeps its id. New items have new ids.
const LINES: &[u8] = b"list\t2\nlist\t3\nlist\t16\nlist\t4\nlist\t12\n\
    page\thttps://v.example/\npage\thttps://gone.example/\npage\thttps://m.example/\n\
    folder\t6\tend\tN\t0\n";

const TOLD: &[u8] = b"rows\t1\nbookmark\t11\tM\thttps://m.example/\n\
    rows\t1\nfolder\t16\tT\t\n\
    rows\t1\nseparator\t17\t\t\n\
    rows\t2\nfolder\t12\tBlue\t\nfolder\t14\tred\t\n\
    rows\t1\nbookmark\t13\t\thttps://m.example/\n\
    page\t1\t100\t1\t0\t0\t0\t0\thttps://v.example/\t\t\n\
    refused\t4\n\
    page\t3\t140\t0\t-\t0\t0\t1\thttps://m.example/\t\tBlue,red\n\
    item\t18\n";

#[test]
fn takes_the_place_of_all_bookmarks(rt: HostRuntime) -> Result<(), Fail> {
    let alloc = rt.alloc();
    let desk = first_store(&rt, alloc)?;
    let desk = goes_on(&rt, alloc, &desk, RUN, b"stats\n", BEFORE)?;
    let desk = goes_on(&rt, alloc, &desk, RESTORE, BACKUP.as_bytes(), SAID)?;
    let desk = goes_on(&rt, alloc, &desk, RUN, b"stats\n", AFTER)?;
    goes_on(&rt, alloc, &desk, RUN, LINES, TOLD)?;
    Ok(())
}

// A backup without a node leaves the page with a visit.
#[test]
fn restores_no_bookmarks(rt: HostRuntime) -> Result<(), Fail> {
    let alloc = rt.alloc();
    let desk = first_store(&rt, alloc)?;
    let said = b"restored\titems\t0\ttags\t0\tskipped\t0\n";
    let desk = goes_on(&rt, alloc, &desk, RESTORE, b"{\"children\":[]}", said)?;
    let told = b"stats\tpages\t1\tvisits\t1\titems\t6\torigins\t1\tsum\t100\tslots\t10\n";
    goes_on(&rt, alloc, &desk, RUN, b"stats\n", told)?;
    Ok(())
}

// The backup of a store that a bookmark file made comes back into another store: a second backup
// has the same bytes.
fn expect_back(rt: &impl Abort, alloc: Global, file: &str, said: &[u8]) -> Result<(), Fail> {
    let store = done(
        alloc,
        &new_store(alloc, &[])?,
        &["import", "s"],
        file.as_bytes(),
    )?;
    let first = done(alloc, &store, &["backup", "s"], b"")?;
    let other = goes_on(
        rt,
        alloc,
        &first_store(rt, alloc)?,
        RESTORE,
        first.said(),
        said,
    )?;
    let second = done(alloc, &other, &["backup", "s"], b"")?;
    assert!(rt; first.said() == second.said());
    Ok(())
}

#[test]
fn a_backup_comes_back(rt: HostRuntime) -> Result<(), Fail> {
    let said = b"restored\titems\t4\ttags\t2\tskipped\t0\n";
    expect_back(&rt, rt.alloc(), WORKED, said)
}

// So many folders one within another are read, and one more is not.
const DEEPEST: usize = 61;

#[test]
fn the_deepest_folders_come_back(rt: HostRuntime) -> Result<(), Fail> {
    let alloc = rt.alloc();
    let folders = "<H3>a<DL>".repeat(alloc, DEEPEST)?;
    let file = format!(in alloc; "<!DOCTYPE NETSCAPE-Bookmark-file-1>{folders}")?;
    let said = b"restored\titems\t61\ttags\t0\tskipped\t0\n";
    expect_back(&rt, alloc, file.as_str(), said)?;
    let file = format!(in alloc; "{file}<H3>b")?;
    let store = done(
        alloc,
        &new_store(alloc, &[])?,
        &["import", "s"],
        file.as_str().as_bytes(),
    )?;
    let backup = done(alloc, &store, &["backup", "s"], b"")?;
    let mut desk = first_store(&rt, alloc)?;
    let status = run_on(alloc, RESTORE, backup.said(), &mut desk);
    assert_eq!(rt; status.number(), 13);
    assert_eq!(rt; status.value(), Some(1));
    Ok(())
}
