// A backup, a store that it is restored into, and runs that are done and say what is wanted.
use pl_desk::MemDesk;
use std::alloc::Global;
use std::process::Abort;
use std::test::Fail;
use trials_desks::{done, new_store};

pub const RESTORE: &[&str] = &["restore", "s"];

pub const RUN: &[&str] = &["run", "s"];

/// A backup with a bookmark of two tags and one without an address in the menu, and a separator in
/// a folder of the toolbar.
pub const BACKUP: &str = "{\"children\":[{\"guid\":\"menu________\",\"children\":[\
    {\"typeCode\":1,\"title\":\"M\",\"uri\":\"https://m.example/\",\"tags\":\"Blue,red\",\
    \"dateAdded\":1000005,\"lastModified\":1000006},\
    {\"typeCode\":1,\"title\":\"X\",\"uri\":\"not a url\"}]},\
    {\"root\":\"toolbarFolder\",\"children\":[{\"typeCode\":2,\"title\":\"T\",\
    \"dateAdded\":2000004,\"lastModified\":2000003,\"children\":[{\"typeCode\":3}]}]}]}\n";

/// What is said of its restore.
pub const SAID: &[u8] = b"restored\titems\t3\ttags\t2\tskipped\t1\n";

/// What `stats` tells of the first store, and of it behind the restore.
pub const BEFORE: &[u8] =
    b"stats\tpages\t3\tvisits\t1\titems\t10\torigins\t3\tsum\t455\tslots\t23\n";

pub const AFTER: &[u8] =
    b"stats\tpages\t2\tvisits\t1\titems\t13\torigins\t2\tsum\t240\tslots\t24\n";

// A page with a visit and a bookmark, one with a bookmark, and one with a tag.
const FIRST: &[u8] = b"visit\thttps://v.example/\t1\t0\n\
    bookmark\t2\tend\thttps://v.example/\tV\t5\nbookmark\t3\tend\thttps://gone.example/\tG\t5\n\
    tag\thttps://m.example/\told\t0\n";

const FIRST_SAID: &[u8] = b"visit\t1\tpage\t1\tfrecency\t100\nitem\t7\nitem\t8\nok\n";

/// A store after what a run of these words makes of it, which ends so and says this.
pub fn goes_on(
    rt: &impl Abort,
    alloc: Global,
    desk: &MemDesk,
    words: &[&str],
    bytes: &[u8],
    said: &[u8],
) -> Result<MemDesk, Fail> {
    let next = done(alloc, desk, words, bytes)?;
    assert_eq!(rt; next.said(), said);
    Ok(next)
}

/// The first store.
pub fn first_store(rt: &impl Abort, alloc: Global) -> Result<MemDesk, Fail> {
    goes_on(rt, alloc, &new_store(alloc, &[])?, RUN, FIRST, FIRST_SAID)
}
