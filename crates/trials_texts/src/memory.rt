// A text that finds no memory on its way. The allocations of a run in which one fails, by
// `rt try --test --fail-alloc N`, are those of the store too: six, where 4, 8, 16, 32 and 64 pages
// are full, and where the marks of 64 are.

use crate::made::{NONE, check_free, check_live, check_text, empty, store_text, text};
use crate::texts::store;
use pl_base::{NoMemory, Slot};
use pl_slot::Arena;
use std::alloc::Global;
use std::process::Abort;
use std::test::Fail;
use trials_arenas::slot_count;

const LONG: u32 = 65_536;

// The slot of a long text that was stored, if there was memory.
fn store_long(rt: &impl Abort, alloc: Global, arena: &mut Arena) -> Result<Option<Slot>, NoMemory> {
    let text = text(alloc, LONG, 3)?;
    Ok(store(rt, arena, &text).ok())
}

// Eight slots are live as before, and all others are free.
fn check_refused(rt: &impl Abort, arena: &Arena) -> Result<(), Fail> {
    check_live(rt, arena, 8)?;
    for slot in 9..slot_count(arena) + 1 {
        check_free(rt, arena, Slot(slot))?;
    }
    Ok(())
}

// The long text is there, or what was taken for it is given back, and it is stored then.
fn check_long(
    rt: &impl Abort,
    alloc: Global,
    arena: &mut Arena,
    stored: Option<Slot>,
) -> Result<(), Fail> {
    let slot = match stored {
        Some(slot) => slot,
        None => {
            check_refused(rt, arena)?;
            store_text(rt, alloc, arena, LONG, 3)?
        }
    };
    check_text(rt, alloc, arena, slot, LONG, 3)?;
    check_live(rt, arena, 8 + 547)
}

#[test]
fn a_store_without_memory_gives_back(rt: HostRuntime) -> Result<(), Fail> {
    let mut arena = empty(rt.alloc())?;
    let first = store_text(&rt, rt.alloc(), &mut arena, 300, 1)?;
    let second = store_text(&rt, rt.alloc(), &mut arena, 600, 2)?;
    check_live(&rt, &arena, 8)?;
    assert!(rt; arena.first_free() == NONE);
    let stored = store_long(&rt, rt.alloc(), &mut arena)?;
    check_text(&rt, rt.alloc(), &arena, first, 300, 1)?;
    check_text(&rt, rt.alloc(), &arena, second, 600, 2)?;
    check_long(&rt, rt.alloc(), &mut arena, stored)?;
    check_text(&rt, rt.alloc(), &arena, first, 300, 1)?;
    check_text(&rt, rt.alloc(), &arena, second, 600, 2)?;
    Ok(())
}
