// What an opening reads of a file.
ghost use Rattle.std.specs.Prelude.{◌≡◌, ℕ, List, Err, Some, drop, IfOk};
ghost use Rattle.pl_base.specs.Touched.{page_size};
ghost use Rattle.pl_desk.specs.Calls.{OnlyReads};
ghost use Rattle.pl_desk.specs.Counts.{Counts, CountsAt};
ghost use Rattle.pl_desk.specs.Settling.{Settles};
ghost use Rattle.pl_gate.specs.FileCalls.{CallsFile};
ghost use Rattle.pl_gate.specs.Recovery.{SettlesGate, StandsAs};
ghost use Rattle.pl_store.specs.Reading.{HoldNone, IsReadFrom, EndsReading, TellsPages};

use crate::ended::Ended;
use crate::reader::Reader;
use crate::uncounted;
use pl_base::{CheckError, PAGE_SIZE};
use pl_desk::{Desk, Failed};
use pl_gate::{Gate, GateError};
use pl_reading::named_pages;
use std::alloc::Global;
use std::marker::Brand;
use std::sync::ledger::Blank;

// How many pages a store may grow by before its bytes are moved to a longer vector.
const ROOM: usize = 64;

/// Settles the gate of a file that a stop may have left.
pub(crate) fn settle<D: Desk>(desk: &mut D) -> Result<(), GateError>
    ensures settles { SettlesGate D.Desk result desk.old desk.new }
    ensures any_moment { (file : List ℕ) → D.held desk.old ≡ Some file
        → Settles D.Desk (result ≡ Err GateError.DeviceFault) desk.old desk.new (StandsAs file) }
    ensures calls { CallsFile D.Desk (CountsAt (result ≡ Err GateError.DeviceFault))
        desk.old desk.new }
{
    let mut gate = Gate::of(desk);
    gate.recover()?;
    Ok(())
}

/// How many pages of the file are its store's, with the gate's and the header's, as the header
/// tells. `None` comes where there is no header, or fewer pages than it names.
fn store_pages<D: Desk>(desk: &mut D) -> Result<Option<u32>, Failed>
    ensures pages { IfOk result (λ pages. TellsPages pages (D.held desk.old)) }
    ensures reads { OnlyReads D.Desk desk.old desk.new }
    ensures counted { Counts result (D.device_faults desk.old) (D.device_faults desk.new) }
{
    let len = desk.len()?;
    if len < 2 * PAGE_SIZE as u64 {
        return Ok(None);
    }
    let mut header = [0; PAGE_SIZE];
    desk.read_at(PAGE_SIZE as u64, &mut header)?;
    let Some(pages) = named_pages(&header) else {
        return Ok(None);
    };
    if len < PAGE_SIZE as u64 * u64::from(pages) {
        return Ok(None);
    }
    Ok(Some(pages))
}

/// What reads the store that the bytes of a file stand for where its gate is not set.
fn reader_of(alloc: Global, bytes: Vec<u8>) -> Result<Reader, CheckError>
    ensures read { IfOk result (λ reader. IsReadFrom reader.rows (drop page_size bytes.items)) }
    ensures not_a_store { result ≡ Err CheckError.NotAStore
        → HoldNone (drop page_size bytes.items) }
{
    let rows = uncounted::check::<Brand>(Blank::new(1), alloc, bytes)?;
    Ok(Reader { alloc, rows })
}

/// What reads the store that a file stands for where its gate is not set. The header's page is
/// read, and then the store's pages, into a vector with room for some more. What lies behind them
/// is not read.
pub(crate) fn read_store<D: Desk>(alloc: Global, desk: &mut D) -> Result<Reader, Ended>
    ensures ends { EndsReading (D.held desk.old) result }
    ensures reads { OnlyReads D.Desk desk.old desk.new }
    ensures counted { CountsAt (result ≡ Err Ended.DeviceFault)
        (D.device_faults desk.old) (D.device_faults desk.new) }
{
    let Some(pages) = store_pages(desk)? else {
        return Err(Ended::NotAStore);
    };
    let mut bytes = Vec::with_capacity(alloc, PAGE_SIZE * (pages as usize + ROOM))?;
    bytes.resize(PAGE_SIZE * pages as usize, 0)?;
    desk.read_at(0, &mut bytes)?;
    Ok(reader_of(alloc, bytes)?)
}
