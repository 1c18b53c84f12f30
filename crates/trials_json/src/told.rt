// What bytes hold, as tables tell it.
ghost use Rattle.std.specs.Prelude.{IfOk};
ghost use Rattle.pl_nbread.specs.WellFormed.{AreWellFormed};

use pl_backup::{BackupError, read};
use pl_nbread::{FILE_LIMIT, Tree};
use std::alloc::Global;
use std::process::Abort;
use std::test::Fail;
use trials_shown::shown;

// The tree of the bytes, or why there is none. More bytes than a file may have are never tried.
pub fn read_file(alloc: Global, bytes: &[u8]) -> Result<Tree, BackupError>
    ensures { IfOk result AreWellFormed }
{
    if bytes.len() >= FILE_LIMIT {
        return Err(BackupError::NoMemory);
    }
    read(alloc, bytes)
}

// The tree with its dates in microseconds, or `refused` and the number of the fault.
pub fn told(alloc: Global, bytes: &[u8]) -> Result<String, Fail> {
    match read_file(alloc, bytes) {
        Ok(tree) => shown(alloc, 1, &tree),
        Err(BackupError::NotBackup(fault)) => {
            Ok(format!(in alloc; "refused {}", fault.number())?)
        }
        Err(BackupError::NoMemory) => Err("no memory".into()),
    }
}

pub fn expect_told(rt: &impl Abort, alloc: Global, bytes: &[u8], wanted: &str) -> Result<(), Fail> {
    let told = told(alloc, bytes)?;
    assert_eq!(rt; told.as_str(), wanted);
    Ok(())
}
