// URLs in slots.
ghost use Rattle.std.specs.Prelude.{◌≡◌, ◌^◌, ◌<◌, ◌≤◌, length, IfOk};
ghost use Rattle.std.specs.Vec.{vec_len};
ghost use Rattle.slots_main.specs.Texts.{HaveUrls, url_size};

use crate::chance::Chance;
use crate::fault::Fault;
use crate::places::MOST_PAGES;
use pl_base::{NoMemory, Slot, Steps};
use pl_slot::Arena;
use pl_text::{bytes, store};
use std::alloc::Global;
use std::sync::ledger::Ledger;

const URL_SIZE: usize = 60;

const DIGITS: usize = 8;

// A URL that ends in the last digits of a number.
fn url(mut number: u32) -> [u8; URL_SIZE]
    ensures { length result ≡ url_size }
{
    let mut url = *b"https://www.example.org/a/path/to/a/page/of/number/000000000";
    for place in (URL_SIZE - DIGITS..URL_SIZE).rev() {
        url[place] = b'0' + (number % 10) as u8;
        number /= 10;
    }
    url
}

/// Stores so many URLs, and gives the slots in which they begin.
pub fn store_urls<L: Ledger>(
    alloc: Global,
    arena: &mut Arena,
    count: u32,
    steps: &mut Steps<L>,
) -> Result<Vec<Slot>, Fault>
    ensures urls { IfOk result (λ slots. HaveUrls slots.items arena.new) }
    ensures count { IfOk result (λ slots. vec_len slots ≡ count) }
{
    let mut slots = Vec::new(alloc);
    for number in 0..count {
        if arena.pages() > MOST_PAGES {
            return Err(Fault::Full);
        }
        let slot = store(arena, &url(number), steps)?;
        slots.push(slot)?;
    }
    Ok(slots)
}

/// The sum of a byte of each of so many texts that are drawn.
pub fn drawn_bytes<L: Ledger>(
    alloc: Global,
    arena: &Arena,
    slots: &[Slot],
    times: u32,
    steps: &mut Steps<L>,
) -> Result<u64, NoMemory>
    requires some { 1 ≤ length slots.now }
    requires few { length slots.now < 2 ^ 32 }
    requires urls { HaveUrls slots.now arena.now }
{
    let mut chance = Chance::new();
    let mut sum = 0u64;
    for turn in 0..times {
        let slot = slots[chance.below(slots.len() as u32) as usize];
        let url = bytes(alloc, arena, slot, URL_SIZE as u32, steps)?;
        sum = sum.wrapping_add(byte_of(&url, turn));
    }
    Ok(sum)
}

// One of the last bytes of a URL, and each of them in turn.
fn byte_of(url: &[u8], turn: u32) -> u64 {
    match url.get(URL_SIZE - 1 - turn as usize % DIGITS) {
        Some(byte) => u64::from(*byte),
        None => 0,
    }
}
