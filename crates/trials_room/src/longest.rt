// The longest store, of which all slots are free.

use pl_base::Slot;
use std::alloc::Global;
use std::process::Abort;
use std::test::Fail;
use trials_arenas::{blank, over, put, sheets_of};

const PAGES: u32 = 524_290;

const SLOTS: u32 = 4_194_304;

// The slot behind the last but one, and the one behind the last; and whether that is an arena.
const ENDS: &[(&str, u32, u32, bool)] = &[
    ("a chain of all", SLOTS, 0, true),
    ("the last one left out", 0, 0, false),
    ("back to the first", SLOTS, 1, false),
];

fn put_link(bytes: &mut [u8], slot: u32, next: u32) -> Result<(), Fail> {
    put(bytes, 1_924 + 128 * slot as usize, &next.to_le_bytes())
}

// All slots are free, each before the next one, but for the last two.
fn links(alloc: Global, last_but_one: u32, last: u32) -> Result<Vec<u8>, Fail> {
    let mut bytes = blank(alloc, PAGES, 1)?;
    for slot in 1..SLOTS - 1 {
        put_link(&mut bytes, slot, slot + 1)?;
    }
    put_link(&mut bytes, SLOTS - 1, last_but_one)?;
    put_link(&mut bytes, SLOTS, last)?;
    Ok(bytes)
}

// Whether those make an arena, which then has all pages and begins with slot 1.
fn makes_arena(rt: &impl Abort, alloc: Global, last_but_one: u32, last: u32) -> Result<bool, Fail> {
    match over(sheets_of(links(alloc, last_but_one, last)?)?)? {
        Some(arena) => {
            assert!(rt; arena.first_free() == Slot(1) && arena.pages() == PAGES);
            Ok(true)
        }
        None => Ok(false),
    }
}

#[test]
fn the_longest_chain_makes_an_arena(rt: HostRuntime) -> Result<(), Fail> {
    for (told, last_but_one, last, is_arena) in ENDS {
        let answer = makes_arena(&rt, rt.alloc(), *last_but_one, *last)?;
        assert!(rt; answer == *is_arena, "{told}");
    }
    Ok(())
}
