// The JSON backup of a store.
ghost use Rattle.std.specs.Prelude.{◌≡◌, IfOk};
ghost use Rattle.pl_store.specs.Session.{reader_store};
ghost use Rattle.places.specs.Reporting.{stored_backup};

use pl_backup::text;
use pl_base::{NoMemory, Txt};
use pl_store::Reader;
use std::alloc::Global;

/// The JSON backup of a store that is read.
pub fn backup_text(alloc: Global, reader: &Reader) -> Result<Txt, NoMemory>
    ensures { IfOk result (λ text. text ≡ stored_backup (reader_store reader.now)) }
{
    text(alloc, &reader.whole_tree()?)
}
