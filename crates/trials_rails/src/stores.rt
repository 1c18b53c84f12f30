// Arenas whose slots hold rows of which the kinds and some links are not 0.

use crate::calls::Chain;
use pl_base::Slot;
use pl_rail::Owner;
use pl_slot::{Arena, Rail, SLOT_SIZE};
use std::alloc::Global;
use std::test::Fail;
use trials_arenas::{blank, over, put, sheets_of};

// What each slot holds, from slot 1 on, by its first two bytes.
const VISIT: [u8; 2] = [3, 1];

const PLACE: [u8; 2] = [2, 0];

const ORIGIN: [u8; 2] = [1, 0];

const ITEM: [u8; 2] = [4, 2];

const FREE: [u8; 2] = [0, 0];

const HELD: [[u8; 2]; 16] = [
    VISIT, PLACE, VISIT, VISIT, VISIT, VISIT, PLACE, ORIGIN, ITEM, ITEM, ITEM, ITEM, PLACE, ORIGIN,
    FREE, VISIT,
];

/// The visits of the page in slot 2.
pub const VISITS: Chain = Chain {
    rail: Rail::PageVisits,
    owner: Owner::At(Slot(2)),
};

/// A link by its bytes: the slot that has it, where it stands there, and the slot that it names.
pub type Named = (u32, usize, u32);

/// The first and the last visit of the page in a slot, and the visits before and behind one of
/// them.
pub const FIRST: usize = 28;

pub const LAST: usize = 32;

pub const PREVIOUS: usize = 20;

pub const NEXT: usize = 24;

/// Sets a link.
pub fn name(bytes: &mut [u8], link: Named) -> Result<(), Fail> {
    if link.0 < 1 || link.0 > 200_000 || link.1 > SLOT_SIZE - 4 {
        return Err(Fail::new("no place of a link"));
    }
    let at = 2048 + SLOT_SIZE * (link.0 as usize - 1) + link.1;
    put(bytes, at, &link.2.to_le_bytes())
}

/// Links these visits of the page in slot 2.
pub fn link(bytes: &mut [u8], members: &[u32]) -> Result<(), Fail> {
    let mut last = 0;
    for member in members {
        follow(bytes, last, *member)?;
        last = *member;
    }
    name(bytes, (2, LAST, last))
}

// Names a member behind the one before it, which is 0 for the first.
fn follow(bytes: &mut [u8], last: u32, member: u32) -> Result<(), Fail> {
    let forth = if last == 0 {
        (2, FIRST, member)
    } else {
        (last, NEXT, member)
    };
    name(bytes, forth)?;
    name(bytes, (member, PREVIOUS, last))
}

/// Bytes of sixteen slots. Their kinds are told above, and their links are 0.
pub fn sixteen(alloc: Global) -> Result<Vec<u8>, Fail> {
    let mut bytes = blank(alloc, 4, 15)?;
    for (n, held) in HELD.iter().enumerate() {
        put(&mut bytes, 2048 + SLOT_SIZE * n, held)?;
    }
    Ok(bytes)
}

/// An arena over bytes.
pub fn arena_of(bytes: Vec<u8>) -> Result<Arena, Fail> {
    match over(sheets_of(bytes)?)? {
        Some(arena) => Ok(arena),
        None => Err(Fail::new("no arena")),
    }
}

/// The arena of sixteen slots, of which these are the visits of the page in slot 2.
pub fn chained(alloc: Global, members: &[u32]) -> Result<Arena, Fail> {
    let mut bytes = sixteen(alloc)?;
    link(&mut bytes, members)?;
    arena_of(bytes)
}

/// Whether these are the slots of the numbers.
pub fn are(slots: &[Slot], numbers: &[u32]) -> bool {
    slots.len() == numbers.len()
        && slots
            .iter()
            .zip(numbers)
            .all(|(slot, number)| slot.0 == *number)
}
