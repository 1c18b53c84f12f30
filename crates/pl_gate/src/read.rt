// What a recovery reads.
ghost use Rattle.std.specs.Prelude.{◌≡◌, ◌≤◌, ◌+◌, length, slice_range, IfOk, IfSome};
ghost use Rattle.std.specs.Int.{w32, w64, from_le_bytes};
ghost use Rattle.pl_base.specs.Touched.{page_size};
ghost use Rattle.pl_desk.specs.Desk.{last_offset};
ghost use Rattle.pl_desk.specs.Counts.{Counts};
ghost use Rattle.pl_desk.specs.Calls.{OnlyReads};
ghost use Rattle.pl_gate.specs.Recovery.{IsGatePageOf};

use pl_desk::{Desk, Failed};

/// What the gate's page tells: whether the gate is set, where the journal begins, how many entries
/// it has, and the store's length in pages once it is installed.
#[derive(Clone, Copy, Debug)]
pub struct GatePage {
    pub is_set: bool,
    pub start: u64,
    pub count: u32,
    pub after: u32,
}

pub fn read_gate_page<D: Desk>(desk: &mut D) -> Result<GatePage, Failed>
    requires within { IfSome (D.held desk.old) (λ file. page_size ≤ length file) }
    ensures told { IfOk result (λ told. IfSome (D.held desk.old) (IsGatePageOf told)) }
    ensures reads { OnlyReads D.Desk desk.old desk.new }
    ensures counted { Counts result (D.device_faults desk.old) (D.device_faults desk.new) }
{
    let mut gate = [0; 1];
    desk.read_at(0, &mut gate)?;
    let start = read_u64(desk, 8)?;
    let count = read_u32(desk, 16)?;
    let after = read_u32(desk, 20)?;
    Ok(GatePage {
        is_set: gate[0] == 1,
        start,
        count,
        after,
    })
}

/// A number of 8 bytes.
pub fn read_u64<D: Desk>(desk: &mut D, at: u64) -> Result<u64, Failed>
    requires range { at + 8 ≤ last_offset }
    requires within { IfSome (D.held desk.old) (λ file. at + 8 ≤ length file) }
    ensures number { IfOk result
        (λ n. IfSome (D.held desk.old)
        (λ file. n ≡ from_le_bytes w64 (slice_range file at (at + 8)))) }
    ensures reads { OnlyReads D.Desk desk.old desk.new }
    ensures counted { Counts result (D.device_faults desk.old) (D.device_faults desk.new) }
{
    let mut bytes = [0; 8];
    desk.read_at(at, &mut bytes)?;
    Ok(u64::from_le_bytes(bytes))
}

/// A number of 4 bytes.
fn read_u32<D: Desk>(desk: &mut D, at: u64) -> Result<u32, Failed>
    requires range { at + 4 ≤ last_offset }
    requires within { IfSome (D.held desk.old) (λ file. at + 4 ≤ length file) }
    ensures number { IfOk result
        (λ n. IfSome (D.held desk.old)
        (λ file. n ≡ from_le_bytes w32 (slice_range file at (at + 4)))) }
    ensures reads { OnlyReads D.Desk desk.old desk.new }
    ensures counted { Counts result (D.device_faults desk.old) (D.device_faults desk.new) }
{
    let mut bytes = [0; 4];
    desk.read_at(at, &mut bytes)?;
    Ok(u32::from_le_bytes(bytes))
}
