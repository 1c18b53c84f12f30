// The journal of a set gate: whether it keeps to its format, and its pages put into their places.
ghost use Rattle.std.specs.Option.{option_map};
ghost use Rattle.std.specs.Prelude.{◌≡◌, ◌≤◌, ◌<◌, ◌⊎◌, ◌↔◌, ◌+◌, ◌*◌, ℕ, List, Some, None, Err};
ghost use Rattle.std.specs.Prelude.{true, false, length, IfOk, IfSome, OnOk};
ghost use Rattle.pl_base.specs.Touched.{page_size};
ghost use Rattle.pl_desk.specs.Desk.{last_offset, overwritten, Torn};
ghost use Rattle.pl_desk.specs.Counts.{CountsAt, Writes};
ghost use Rattle.pl_desk.specs.Calls.{OnlyReads};
ghost use Rattle.pl_gate.specs.FileCalls.{CallsFile, MayTear};
ghost use Rattle.pl_gate.specs.Device.{image_ranges, with_images, TornIn};
ghost use Rattle.pl_gate.specs.Gate.{entry_at, entry_size, has_gate, is_journal, is_set, journal};
ghost use Rattle.pl_gate.specs.Recovery.{IsGatePageOf};

use crate::device::ENTRY_SIZE;
use crate::error::GateError;
use crate::read::{GatePage, read_u64};
use pl_base::PAGE_SIZE;
use pl_desk::Desk;

/// Whether the journal keeps to its format, in a file of this length.
pub fn check_journal<D: Desk>(desk: &mut D, told: &GatePage, len: u64) -> Result<(), GateError>
    requires len { IfSome (D.held desk.old) (λ file. len ≡ length file) }
    requires range { len ≤ last_offset }
    requires told { IfSome (D.held desk.old) (IsGatePageOf told.now) }
    ensures journal { OnOk result (IfSome (D.held desk.old) (λ file. is_journal file ≡ true)) }
    ensures bad { result ≡ Err GateError.BadGate
        → IfSome (D.held desk.old) (λ file. is_journal file ≡ false) }
    ensures bound { OnOk result (told.now.start + entry_size * told.now.count ≤ len) }
    ensures reads { OnlyReads D.Desk desk.old desk.new }
    ensures counted { CountsAt (result ≡ Err GateError.DeviceFault)
        (D.device_faults desk.old) (D.device_faults desk.new) }
{
    if !lies_behind(told, len) {
        return Err(GateError::BadGate);
    }
    let mut last = 0;
    let mut index = 0;
    while index < told.count {
        let at = told.start + ENTRY_SIZE as u64 * index as u64;
        last = read_page(desk, at, last, told.after)?;
        index += 1;
    }
    Ok(())
}

// Whether the journal lies within a file of this length, behind the store's pages.
fn lies_behind(told: &GatePage, len: u64) -> bool
    ensures { (result ≡ true)
        ↔ ((told.now.start + entry_size * told.now.count ≤ len)
        × (page_size * told.now.after ≤ told.now.start)) }
{
    let Some(end) = told
        .start
        .checked_add(ENTRY_SIZE as u64 * told.count as u64)
    else {
        return false;
    };
    end <= len && PAGE_SIZE as u64 * told.after as u64 <= told.start
}

// The number of an entry's page, which is above the last one and a page of the store.
fn read_page<D: Desk>(desk: &mut D, at: u64, last: u64, after: u32) -> Result<u64, GateError>
    requires range { at + 8 ≤ last_offset }
    requires within { IfSome (D.held desk.old) (λ file. at + 8 ≤ length file) }
    ensures page { IfOk result
        (λ page. IfSome (D.held desk.old) (λ file. page ≡ (entry_at at file).page)) }
    ensures above { IfOk result (λ page. last < page) }
    ensures below { IfOk result (λ page. page < after) }
    ensures bad { result ≡ Err GateError.BadGate
        → IfSome (D.held desk.old)
        (λ file. ((entry_at at file).page ≤ last) ⊎ (after ≤ (entry_at at file).page)) }
    ensures reads { OnlyReads D.Desk desk.old desk.new }
    ensures counted { CountsAt (result ≡ Err GateError.DeviceFault)
        (D.device_faults desk.old) (D.device_faults desk.new) }
{
    let page = read_u64(desk, at)?;
    if page <= last || page >= after as u64 {
        return Err(GateError::BadGate);
    }
    Ok(page)
}

/// Puts the images of the journal's pages into their places.
pub fn install_journal<D: Desk>(desk: &mut D, told: &GatePage) -> Result<(), GateError>
    requires range { told.now.start + entry_size * told.now.count ≤ last_offset }
    requires told { IfSome (D.held desk.old) (IsGatePageOf told.now) }
    requires set { IfSome (D.held desk.old) (λ file. is_set file ≡ true) }
    requires gate { IfSome (D.held desk.old) (λ file. has_gate file ≡ true) }
    ensures held { OnOk result
        (D.held desk.new ≡ option_map (λ file. with_images (journal file) file) (D.held desk.old)) }
    ensures torn { (file : List ℕ) → D.held desk.old ≡ Some file
        → MayTear D.Desk (TornIn (image_ranges (journal file))) desk.old desk.new }
    ensures written { Writes result (page_size * told.now.count)
        (D.written desk.old) (D.written desk.new) }
    ensures calls { CallsFile D.Desk (CountsAt (result ≡ Err GateError.DeviceFault))
        desk.old desk.new }
    ensures good { result ≡ Err GateError.BadGate → D.held desk.old ≡ None }
{
    let mut last = 0;
    let mut index = 0;
    while index < told.count {
        let at = told.start + ENTRY_SIZE as u64 * index as u64;
        last = install_entry(desk, at, last, told.after)?;
        index += 1;
    }
    Ok(())
}

// Puts the image of an entry into its page's place, and says which page it is.
fn install_entry<D: Desk>(desk: &mut D, at: u64, last: u64, after: u32) -> Result<u64, GateError>
    requires range { at + entry_size ≤ last_offset }
    requires within { IfSome (D.held desk.old) (λ file. at + entry_size ≤ length file) }
    ensures page { IfOk result
        (λ page. IfSome (D.held desk.old) (λ file. page ≡ (entry_at at file).page)) }
    ensures held { OnOk result
        (D.held desk.new ≡ option_map
        (λ file. overwritten 0 (page_size * (entry_at at file).page) (entry_at at file).image file)
        (D.held desk.old)) }
    ensures bad { result ≡ Err GateError.BadGate
        → IfSome (D.held desk.old)
        (λ file. ((entry_at at file).page ≤ last) ⊎ (after ≤ (entry_at at file).page)) }
    ensures torn { (file : List ℕ) → D.held desk.old ≡ Some file
        → MayTear D.Desk (Torn (page_size * (entry_at at file).page) page_size)
        desk.old desk.new }
    ensures written { Writes result page_size (D.written desk.old) (D.written desk.new) }
    ensures calls { CallsFile D.Desk (CountsAt (result ≡ Err GateError.DeviceFault))
        desk.old desk.new }
{
    let page = read_page(desk, at, last, after)?;
    let mut image = [0; PAGE_SIZE];
    desk.read_at(at + 8, &mut image)?;
    desk.write_at(PAGE_SIZE as u64 * page, &image)?;
    Ok(page)
}
