// The pages of the entries in the folder of a tag.
ghost use Rattle.std.specs.Prelude.{◌≡◌, ◌++◌, map, IfOk, OnOk};
ghost use Rattle.std.specs.Option.{option_copied, option_to_list};
ghost use Rattle.pl_base.specs.Good.{IsGood};
ghost use Rattle.pl_base.specs.Rows.{store_of};
ghost use Rattle.pl_indexed.specs.Answer.{taken};
ghost use Rattle.pl_indexed.specs.Asked.{IsAsked};
ghost use Rattle.pl_indexed.specs.Found.{AreFound, seen, seen_of};
ghost use Rattle.pl_known.specs.Known.{AreFollowed};
ghost use Rattle.pl_tagged.specs.Entered as spec;

use pl_base::{ItemId, NoMemory, PageId, Rows, Steps, View};
use pl_indexed::{Asked, Found, add};
use pl_known::Known;
use pl_tree::tag_folder;
use pl_words::TagName;
use std::alloc::Global;
use std::sync::ledger::Ledger;

// The page of an item.
fn entry_page<R: Rows, L: Ledger>(rows: &R, entry: ItemId, steps: &mut Steps<L>) -> Option<PageId>
    ensures { result ≡ spec.entry_page (R.kept rows.now).items entry }
{
    rows.item_at(entry, steps)?.page
}

// The view of the page of an item.
fn entry_view<'a, R: Rows, L: Ledger>(
    rows: &R,
    known: &'a Known,
    entry: ItemId,
    steps: &mut Steps<L>,
) -> Option<&'a View>
    requires { AreFollowed known.now }
    ensures { option_copied result
        ≡ spec.entry_view (R.kept rows.now).items known.now.views.items entry }
{
    let page = entry_page(rows, entry, steps)?;
    known.view(page)
}

// The page of an item joins the others where the query takes it.
fn add_entry<'a, R: Rows, L: Ledger>(
    alloc: Global,
    rows: &R,
    known: &'a Known,
    asked: &Asked<'_>,
    entry: ItemId,
    found: &mut Vec<Found<'a>>,
    steps: &mut Steps<L>,
) -> Result<(), NoMemory>
    requires followed { AreFollowed known.now }
    requires asked { IsAsked asked.now.query.now asked.now }
    ensures { let q = asked.now.query.now
        in OnOk result (map seen found.new.items ≡ map seen found.old.items
        ++ map (seen_of q.sort) (taken q (option_to_list
        (spec.entry_view (R.kept rows.now).items known.now.views.items entry)))) }
{
    let Some(view) = entry_view(rows, known, entry, steps) else {
        return Ok(());
    };
    add(alloc, known, asked, view, found)
}

// The pages of the children of a folder that the query takes.
fn entered<'a, R: Rows, L: Ledger>(
    alloc: Global,
    rows: &R,
    known: &'a Known,
    asked: &Asked<'_>,
    folder: ItemId,
    steps: &mut Steps<L>,
) -> Result<Vec<Found<'a>>, NoMemory>
    requires good { IsGood (store_of (R.kept rows.now)) }
    requires followed { AreFollowed known.now }
    requires asked { IsAsked asked.now.query.now asked.now }
    ensures { let q = asked.now.query.now
        in IfOk result (λ found. AreFound q.sort (taken q
        (spec.entered (R.kept rows.now).items known.now.views.items folder)) found.items) }
{
    let mut found = Vec::new(alloc);
    let mut next = rows.first_child(folder, steps);
    while let Some(entry) = next {
        add_entry(alloc, rows, known, asked, entry, &mut found, steps)?;
        next = rows.next_sibling(entry, steps);
    }
    Ok(found)
}

/// The pages with a tag that the query takes.
pub fn tagged<'a, R: Rows, L: Ledger>(
    alloc: Global,
    rows: &R,
    known: &'a Known,
    asked: &Asked<'_>,
    tag: &TagName,
    steps: &mut Steps<L>,
) -> Result<Vec<Found<'a>>, NoMemory>
    requires good { IsGood (store_of (R.kept rows.now)) }
    requires followed { AreFollowed known.now }
    requires asked { IsAsked asked.now.query.now asked.now }
    ensures { let q = asked.now.query.now
        in IfOk result (λ found. AreFound q.sort (taken q
        (spec.tagged (R.kept rows.now).items known.now.views.items tag.now)) found.items) }
{
    let Some(folder) = tag_folder(alloc, rows, tag, steps)? else {
        return Ok(Vec::new(alloc));
    };
    entered(alloc, rows, known, asked, folder, steps)
}
