// The fields of a slot, put to their places and read from there.
ghost use Rattle.std.specs.Prelude.{◌≡◌, ◌≤◌, ◌+◌, ◌<◌, ◌∷◌, [], length};
ghost use Rattle.std.specs.Int.{w32, w64, to_le_bytes};
ghost use Rattle.pl_base.specs.Live.{slot_size};
ghost use Rattle.pl_slot.specs.Slot.{payload_size};
ghost use Rattle.pl_slot.specs.SlotReading as reading;
ghost use Rattle.pl_slot.specs.SlotWriting.{put};

use crate::row::{PAYLOAD_SIZE, SLOT_SIZE};
use pl_base::Slot;

// Puts a field to its place.
#[tactic(auto, unfolding(crate::specs::SlotWriting::put))]
fn put_bytes(bytes: &mut [u8; SLOT_SIZE], at: usize, field: &[u8])
    requires { at + length field.now ≤ slot_size }
    ensures { bytes.new ≡ put (at, field.now) bytes.old }
{
    bytes[at..at + field.len()].copy_from_slice(field);
}

pub fn put_byte(bytes: &mut [u8; SLOT_SIZE], at: usize, value: u8)
    requires { at < slot_size }
    ensures { bytes.new ≡ put (at, value ∷ []) bytes.old }
{
    put_bytes(bytes, at, &[value]);
}

pub fn put_four(bytes: &mut [u8; SLOT_SIZE], at: usize, value: u32)
    requires { at + 4 ≤ slot_size }
    ensures { bytes.new ≡ put (at, to_le_bytes w32 value) bytes.old }
{
    put_bytes(bytes, at, &value.to_le_bytes());
}

pub fn put_eight(bytes: &mut [u8; SLOT_SIZE], at: usize, value: u64)
    requires { at + 8 ≤ slot_size }
    ensures { bytes.new ≡ put (at, to_le_bytes w64 value) bytes.old }
{
    put_bytes(bytes, at, &value.to_le_bytes());
}

/// Puts two slots beside each other, such as the one before in a chain and the one behind.
pub fn put_slots(bytes: &mut [u8; SLOT_SIZE], at: usize, slots: (Slot, Slot))
    requires { at + 8 ≤ slot_size }
    ensures { bytes.new ≡ put (at + 4, to_le_bytes w32 slots.1.0)
        (put (at, to_le_bytes w32 slots.0.0) bytes.old) }
{
    put_four(bytes, at, slots.0.0);
    put_four(bytes, at + 4, slots.1.0);
}

/// Puts the first slot of a text, and its length beside it.
pub fn put_text(bytes: &mut [u8; SLOT_SIZE], at: usize, first: Slot, length: u32)
    requires { at + 8 ≤ slot_size }
    ensures { bytes.new ≡ put (at + 4, to_le_bytes w32 length)
        (put (at, to_le_bytes w32 first.0) bytes.old) }
{
    put_four(bytes, at, first.0);
    put_four(bytes, at + 4, length);
}

/// Puts the payload of a part of a text to its place.
pub fn put_payload(bytes: &mut [u8; SLOT_SIZE], payload: &[u8; PAYLOAD_SIZE])
    ensures put { bytes.new ≡ put (8, payload.now) bytes.old }
    ensures long { length payload.now ≡ payload_size }
{
    put_bytes(bytes, 8, payload);
}

#[inline(always)]
pub fn four_at(bytes: &[u8; SLOT_SIZE], at: usize) -> u32
    requires { at + 4 ≤ slot_size }
    ensures { result ≡ reading.four_in at bytes.now }
{
    let mut number = [0; 4];
    number.copy_from_slice(&bytes[at..at + 4]);
    u32::from_le_bytes(number)
}

#[inline(always)]
pub fn eight_at(bytes: &[u8; SLOT_SIZE], at: usize) -> u64
    requires { at + 8 ≤ slot_size }
    ensures { result ≡ reading.eight_in at bytes.now }
{
    let mut number = [0; 8];
    number.copy_from_slice(&bytes[at..at + 8]);
    u64::from_le_bytes(number)
}

#[inline(always)]
pub fn slot_at(bytes: &[u8; SLOT_SIZE], at: usize) -> Slot
    requires { at + 4 ≤ slot_size }
    ensures { result ≡ reading.slot_in at bytes.now }
{
    Slot(four_at(bytes, at))
}
