// A store over vectors.
mod drop;
mod insert;
mod items;
mod mark;
mod remove;
mod row;
mod rows;
mod search;
mod targets;
mod title;
mod visit;

ghost use Rattle.std.specs.Prelude.{◌≤◌, ◌≡◌, length};
ghost use Rattle.std.proofs.Props.{props};
ghost use Rattle.pl_plain.specs.FlatRows.{IsFlat, kept_from};

use crate::flat::row::FlatPage;
use pl_base::{Day, Ids, NoMemory};
use pl_items::Items;
use pl_stored::StoredVisit;
use std::alloc::Global;

/// A store over vectors of its rows.
///
/// A page or a visit is found by its id by halves. A page's latest visits, and the visits that
/// came from one, are found by a scan of all visits, and an item by a scan of all items. It has no
/// bytes, and `touched` lists no page.
#[derive(Debug, Drop)]
pub struct Flat {
    alloc: Global,
    day: Day,
    ids: Ids,
    // By ascending id.
    pages: Vec<FlatPage>,
    // By ascending id.
    visits: Vec<StoredVisit>,
    items: Items,
    // The total of each origin, where the first is named 1 and so on.
    totals: Vec<u64>,
    // In slots of 128 bytes.
    live: u64,
    ghost rows: { IsFlat (kept_from day ids pages.items totals.items visits.items items)
        (length totals.items) live } by { Prim.hlevel props },
}

impl Flat {
    ghost use Rattle.std.specs.Prelude.{◌↔◌, ℕ, List, [], IfOk};
    ghost use Rattle.pl_base.specs.Rows.{IsSound, opening_with};
    ghost use Rattle.pl_plain.specs.Flat.{IsBase, kept_of};

    /// The store before its first command, made over nothing.
    pub fn opening(alloc: Global) -> Result<Flat, NoMemory>
        ensures kept { IfOk result (λ flat. kept_of flat ≡ opening_with Ids.OPENING) }
        ensures sound { IfOk result (λ flat. IsSound (kept_of flat)) }
        ensures base { IfOk result (λ flat. (bytes : List ℕ) → IsBase flat bytes ↔ (bytes ≡ [])) }
    {
        Flat::with_ids(alloc, Ids::OPENING)
    }

    /// The opening store with these next ids, made over nothing.
    pub fn with_ids(alloc: Global, ids: Ids) -> Result<Flat, NoMemory>
        requires page { 1 ≤ ids.page }
        requires visit { 1 ≤ ids.visit }
        requires item { 7 ≤ ids.item }
        ensures kept { IfOk result (λ flat. kept_of flat ≡ opening_with ids) }
        ensures sound { IfOk result (λ flat. IsSound (kept_of flat)) }
        ensures base { IfOk result (λ flat. (bytes : List ℕ) → IsBase flat bytes ↔ (bytes ≡ [])) }
    {
        Ok(Flat {
            alloc,
            day: Day(0),
            ids,
            pages: Vec::new(alloc),
            visits: Vec::new(alloc),
            items: Items::opening(alloc)?,
            totals: Vec::new(alloc),
            live: ROOT_SLOTS,
        })
    }
}

/// The six roots, which have no titles.
const ROOT_SLOTS: u64 = 6;
