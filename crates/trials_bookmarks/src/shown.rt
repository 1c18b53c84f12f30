// What bytes hold, in the words of the tables.
ghost use Rattle.std.specs.Prelude.{IfOk};
ghost use Rattle.pl_nbread.specs.WellFormed.{AreWellFormed};

use pl_base::MICROS_PER_SECOND;
use pl_nbread::{FILE_LIMIT, ReadError, Tree, read};
use std::alloc::Global;
use std::process::Abort;
use std::test::Fail;
use trials_shown::shown;

pub const DOCTYPE: &str = "<!DOCTYPE NETSCAPE-Bookmark-file-1>";

// The tree of the bytes, or why there is none. More bytes than a file may have are never tried.
pub fn read_file(alloc: Global, bytes: &[u8]) -> Result<Tree, ReadError>
    ensures { IfOk result AreWellFormed }
{
    if bytes.len() >= FILE_LIMIT {
        return Err(ReadError::NoMemory);
    }
    read(alloc, bytes)
}

// The bytes hold this tree.
pub fn expect_tree(rt: &impl Abort, alloc: Global, bytes: &[u8], tree: &str) -> Result<(), Fail> {
    let read = read_file(alloc, bytes)?;
    let text = shown(alloc, MICROS_PER_SECOND, &read)?;
    assert_eq!(rt; text.as_str(), tree);
    Ok(())
}

// Each text behind the doctype holds its tree.
pub fn expect_trees(rt: &impl Abort, alloc: Global, trees: &[(&str, &str)]) -> Result<(), Fail> {
    for (body, tree) in trees {
        let text = format!(in alloc; "{DOCTYPE}{body}")?;
        expect_tree(rt, alloc, text.as_bytes(), tree)?;
    }
    Ok(())
}
