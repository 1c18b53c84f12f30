// A backup, read from its bytes.
ghost use Rattle.std.specs.Prelude.{◌≡◌, ◌<◌, length, IfOk, Err, None, Ok, Some};
ghost use Rattle.pl_nbread.specs.BookmarkFile.{file_limit};
ghost use Rattle.pl_nbread.specs.WellFormed.{AreWellFormed};
ghost use Rattle.pl_backup.specs.BackupTree.{backup_tree, value_of};
ghost use Rattle.pl_backup.specs.declared.error.BackupError.TheVariants.{NotBackup};
ghost use Rattle.pl_backup.specs.declared.error.Fault.TheVariants.{NoChildren, NotJson};
ghost use Rattle.serde_json.specs.Read as json;
ghost use Rattle.serde_json.specs.View.{view};

use crate::error::{BackupError, Fault};
use crate::fields::children;
use crate::roots::tree_of;
use pl_nbread::Tree;
use serde_json::Value;
use std::alloc::Global;

/// The tree that a backup holds, as Firefox writes one. Each value in a list of a root or a folder
/// gives a node, or is counted as skipped. There are fewer bytes than `pl_nbread::FILE_LIMIT`.
pub fn read(alloc: Global, bytes: &[u8]) -> Result<Tree, BackupError>
    requires short { length bytes.now < file_limit }
    ensures tree { IfOk result (λ tree. backup_tree bytes.now ≡ Ok tree) }
    ensures formed { IfOk result AreWellFormed }
    ensures not_json { result ≡ Err (NotBackup NotJson) → backup_tree bytes.now ≡ Err NotJson }
    ensures no_backup { result ≡ Err (NotBackup NoChildren)
        → backup_tree bytes.now ≡ Err NoChildren }
{
    let value = value_of(alloc, bytes)?;
    match children(&value) {
        Some(values) => Ok(tree_of(alloc, values)?),
        None => Err(BackupError::NotBackup(Fault::NoChildren)),
    }
}

// The value that bytes are.
fn value_of(alloc: Global, bytes: &[u8]) -> Result<Value, BackupError>
    ensures value { IfOk result (λ value. value_of bytes.now ≡ Some (view value)) }
    ensures read { IfOk result (λ value. json.read bytes.now ≡ Some (view value)) }
    ensures not_json { result ≡ Err (NotBackup NotJson) → value_of bytes.now ≡ None }
    ensures json { ¬ (result ≡ Err (NotBackup NoChildren)) }
{
    match Value::from_slice(alloc, bytes) {
        Ok(value) => Ok(value),
        Err(error) if error.is_memory() => Err(BackupError::NoMemory),
        Err(_) => Err(BackupError::NotBackup(Fault::NotJson)),
    }
}
