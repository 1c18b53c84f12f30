// The store before its first command.
ghost use Rattle.std.specs.Prelude.{◌≡◌, ◌≤◌, ◌<◌, ◌*◌, replicate, IfOk};
ghost use Rattle.pl_base.specs.Live.{slot_size};
ghost use Rattle.pl_base.specs.Touched.{page_size};
ghost use Rattle.pl_record.specs.Opening as opening;
ghost use Rattle.pl_sheets.specs.Sheets.{page_count, unchanged, with_blank, with_bytes};
ghost use Rattle.pl_slot.specs.Slot.{slot_bytes};

use pl_base::{ItemId, ItemKind, Micros, NoMemory, PAGE_SIZE, Slot};
use pl_sheets::Sheets;
use pl_slot::{Arena, SLOT_SIZE, SlotRow, encode};
use std::alloc::Global;
use std::collections::BTreeMap;

// The header: three pages, day 0, the next ids, the first free slot, the chains, of which only that
// of items has slots, and six live slots.
const HEADER: &[u8; 68] = b"PLSTORE1\
    \x03\0\0\0\0\0\0\0\x01\0\0\0\x01\0\0\0\x07\0\0\0\x07\0\0\0\
    \0\0\0\0\0\0\0\0\0\0\0\0\0\0\0\0\0\0\0\0\0\0\0\0\x01\0\0\0\x06\0\0\0\
    \x06\0\0\0";

const NONE: Slot = Slot(0);

// A root, with the slots beside it among all items, its parent, the slots beside it among the
// parent's children, and its first child and its last one.
fn root(
    id: u32,
    beside: (u32, u32),
    parent: u32,
    siblings: (u32, u32),
    children: (u32, u32),
) -> SlotRow
    ensures { result ≡ opening.root_row id beside.0 beside.1 parent siblings.0 siblings.1
        children.0 children.1 }
{
    SlotRow::Item {
        kind: ItemKind::Folder,
        live_previous: Slot(beside.0),
        live_next: Slot(beside.1),
        id: ItemId(id),
        parent: Slot(parent),
        sibling_previous: Slot(siblings.0),
        sibling_next: Slot(siblings.1),
        first_child: Slot(children.0),
        last_child: Slot(children.1),
        page: NONE,
        reference_previous: NONE,
        reference_next: NONE,
        title_text: NONE,
        title_length: 0,
        added: Micros(0),
        modified: Micros(0),
    }
}

// Puts a row into a slot of page 2, counted from 0.
fn put(sheets: &mut Sheets, place: usize, row: &SlotRow)
    requires room { 3 ≤ page_count sheets.old }
    requires place { place < 8 }
    ensures put { sheets.new ≡ with_bytes 2 (slot_size * place) (slot_bytes row.now) sheets.old }
    ensures as_many { page_count sheets.new ≡ page_count sheets.old }
{
    sheets.put(2, SLOT_SIZE * place, &encode(row));
}

// The roots in the first six slots, and two free ones.
fn put_roots(sheets: &mut Sheets)
    requires { 3 ≤ page_count sheets.old }
    ensures { sheets.new ≡ opening.with_rows 0 opening.opening_rows sheets.old }
{
    put(sheets, 0, &root(1, (0, 2), 0, (0, 0), (2, 6)));
    put(sheets, 1, &root(2, (1, 3), 1, (0, 3), (0, 0)));
    put(sheets, 2, &root(3, (2, 4), 1, (2, 4), (0, 0)));
    put(sheets, 3, &root(4, (3, 5), 1, (3, 5), (0, 0)));
    put(sheets, 4, &root(5, (4, 6), 1, (4, 6), (0, 0)));
    put(sheets, 5, &root(6, (5, 0), 1, (5, 0), (0, 0)));
    put(sheets, 6, &SlotRow::Free { next: Slot(8) });
    put(sheets, 7, &SlotRow::Free { next: NONE });
}

// Three pages of zeros, of which page 0 alone was there before.
fn three_pages(alloc: Global) -> Result<Sheets, NoMemory>
    ensures { IfOk result (λ sheets. sheets
        ≡ with_blank (with_blank (unchanged (replicate page_size 0)))) }
{
    let mut sheets = Sheets::from_bytes(vec![in alloc; 0; PAGE_SIZE]?)?;
    sheets.grow()?;
    sheets.grow()?;
    Ok(sheets)
}

fn opening_sheets(alloc: Global) -> Result<Sheets, NoMemory>
    ensures { IfOk result (λ sheets. sheets ≡ opening.opening_pages) }
{
    let mut sheets = three_pages(alloc)?;
    sheets.put(1, 0, HEADER);
    put_roots(&mut sheets);
    Ok(sheets)
}

/// The slots of the opening store. Its pages have all changed, but for page 0.
pub fn opening_arena(alloc: Global) -> Result<Arena, NoMemory>
    ensures { IfOk result (λ arena. arena ≡ opening.opening_pages) }
{
    match Arena::over(opening_sheets(alloc)?) {
        Ok(arena) => Ok(arena),
        Err(_) => unreachable!(),
    }
}

/// The slots of the roots by their ids.
pub fn root_slots(alloc: Global) -> Result<BTreeMap<u32, Slot>, NoMemory>
    ensures { IfOk result (λ slots. slots.entries ≡ opening.opening_items) }
{
    let mut slots = BTreeMap::new(alloc);
    slots.insert(1, Slot(1))?;
    slots.insert(2, Slot(2))?;
    slots.insert(3, Slot(3))?;
    slots.insert(4, Slot(4))?;
    slots.insert(5, Slot(5))?;
    slots.insert(6, Slot(6))?;
    Ok(slots)
}
