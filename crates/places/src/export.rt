// The bookmark file of a store.
ghost use Rattle.std.specs.Prelude.{◌≡◌, IfOk};
ghost use Rattle.pl_store.specs.Session.{reader_store};
ghost use Rattle.places.specs.Exporting as spec;
ghost use Rattle.places.specs.Exporting.{ComesBack};

use pl_base::{NoMemory, Txt};
use pl_nbwrite::text;
use pl_store::Reader;
use std::alloc::Global;

/// The bookmark file of a store that is read.
pub fn export_text(alloc: Global, reader: &Reader) -> Result<Txt, NoMemory>
    ensures text { IfOk result (λ text. text ≡ spec.export_text (reader_store reader.now)) }
    ensures returns { IfOk result (λ _. ComesBack (reader_store reader.now)) }
{
    text(alloc, &reader.tree()?)
}
