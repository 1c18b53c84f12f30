// The calls of the device that a commit and a recovery are made of.
ghost use Rattle.std.specs.Prelude.{◌≡◌, ◌≤◌, ◌<◌, ◌+◌, ◌*◌, ◌++◌, length, IfSome, OnOk};
ghost use Rattle.std.specs.Int.{w64, to_le_bytes};
ghost use Rattle.std.specs.Option.{option_map};
ghost use Rattle.pl_base.specs.Touched.{page_size};
ghost use Rattle.pl_desk.specs.Desk.{last_offset, overwritten, Torn, Only};
ghost use Rattle.pl_desk.specs.Counts.{Counts, Writes};
ghost use Rattle.pl_gate.specs.FileCalls.{CallsFile, MayTear};
ghost use Rattle.pl_gate.specs.Gate.{entry_size};
ghost use Rattle.pl_gate.specs.Device.{entry_ranges, image_ranges, place_bytes, with_entries};
ghost use Rattle.pl_gate.specs.Device.{with_gate, with_images, TornIn};

use pl_base::{PAGE_SIZE, Touched};
use pl_desk::{Desk, Failed};

/// The bytes of an entry: a page's number and its image.
pub const ENTRY_SIZE: usize = 1032;

/// Where the gate's page tells of the journal.
const PLACE: u64 = 8;

/// Writes the journal's entries, one write each.
pub fn write_entries<D: Desk>(desk: &mut D, start: u64, touched: &Touched) -> Result<(), Failed>
    requires range { start + entry_size * length touched.now.pages ≤ last_offset }
    ensures held { OnOk result
        (D.held desk.new ≡ option_map (with_entries start touched.now.pages) (D.held desk.old)) }
    ensures torn { MayTear D.Desk (TornIn (entry_ranges start touched.now.pages))
        desk.old desk.new }
    ensures written { Writes result (entry_size * length touched.now.pages)
        (D.written desk.old) (D.written desk.new) }
    ensures calls { CallsFile D.Desk (Counts result) desk.old desk.new }
{
    let mut index = 0;
    while index < touched.count() {
        let at = start + (ENTRY_SIZE * index) as u64;
        let entry = entry_bytes(touched.page(index), touched.image(index));
        desk.write_at(at, &entry)?;
        index += 1;
    }
    Ok(())
}

fn entry_bytes(page: u32, image: &[u8]) -> [u8; ENTRY_SIZE]
    requires { length image.now ≡ page_size }
    ensures { result ≡ to_le_bytes w64 page ++ image.now }
{
    let mut entry = [0; ENTRY_SIZE];
    entry[..8].copy_from_slice(&(page as u64).to_le_bytes());
    entry[8..].copy_from_slice(image);
    entry
}

/// Writes where the journal begins, how many entries it has, and the store's length in pages after
/// it.
pub fn write_place<D: Desk>(desk: &mut D, start: u64, count: u32, after: u32) -> Result<(), Failed>
    ensures held { OnOk result
        (D.held desk.new ≡ option_map (overwritten 0 8 (place_bytes start count after))
        (D.held desk.old)) }
    ensures torn { MayTear D.Desk (Torn 8 16) desk.old desk.new }
    ensures written { Writes result 16 (D.written desk.old) (D.written desk.new) }
    ensures calls { CallsFile D.Desk (Counts result) desk.old desk.new }
{
    desk.write_at(PLACE, &place_bytes(start, count, after))
}

fn place_bytes(start: u64, count: u32, after: u32) -> [u8; 16]
    ensures { result ≡ place_bytes start count after }
{
    let mut place = [0; 16];
    place[..8].copy_from_slice(&start.to_le_bytes());
    place[8..12].copy_from_slice(&count.to_le_bytes());
    place[12..].copy_from_slice(&after.to_le_bytes());
    place
}

/// Writes each image in its page's place.
pub fn write_images<D: Desk>(desk: &mut D, touched: &Touched) -> Result<(), Failed>
    ensures held { OnOk result
        (D.held desk.new ≡ option_map (with_images touched.now.pages) (D.held desk.old)) }
    ensures torn { MayTear D.Desk (TornIn (image_ranges touched.now.pages)) desk.old desk.new }
    ensures written { Writes result (page_size * length touched.now.pages)
        (D.written desk.old) (D.written desk.new) }
    ensures calls { CallsFile D.Desk (Counts result) desk.old desk.new }
{
    let mut index = 0;
    while index < touched.count() {
        let at = PAGE_SIZE as u64 * touched.page(index) as u64;
        desk.write_at(at, touched.image(index))?;
        index += 1;
    }
    Ok(())
}

/// Writes the gate's byte and syncs, after which a stop leaves just what a read gives.
pub fn write_gate<D: Desk>(desk: &mut D, byte: u8) -> Result<(), Failed>
    ensures held { OnOk result (D.held desk.new ≡ option_map (with_gate byte) (D.held desk.old)) }
    ensures durable { OnOk result
        (IfSome (D.held desk.new) (λ file. Only file (D.may_leave desk.new))) }
    ensures torn { MayTear D.Desk (Torn 0 1) desk.old desk.new }
    ensures written { Writes result 1 (D.written desk.old) (D.written desk.new) }
    ensures calls { CallsFile D.Desk (Counts result) desk.old desk.new }
{
    desk.write_at(0, &[byte])?;
    desk.sync()
}
