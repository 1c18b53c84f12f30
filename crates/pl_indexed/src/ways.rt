// The ways to the pages that answer a query.
ghost use Rattle.std.specs.Prelude.{◌≡◌, ◌<◌, ◌++◌, ◌∷◌, [], Some, map, true};
ghost use Rattle.std.specs.Prelude.{IfOk, IfSome, OnOk};
ghost use Rattle.pl_known.specs.Known.{AreFollowed, view_of};
ghost use Rattle.pl_indexed.specs.Answer.{AreEnough, Suffice, taken};
ghost use Rattle.pl_indexed.specs.Asked.{IsAsked};
ghost use Rattle.pl_indexed.specs.Found.{AreFound, seen, seen_of};
ghost use Rattle.pl_indexed.specs.Sketched.{HavePossible};
ghost use Rattle.pl_indexed.specs.Walk.{sort_of};

use crate::asked::{Asked, decides};
use crate::found::{Found, key_of};
use crate::sketched::{is_possible, possible_pages};
use crate::walk::{KeptOrder, comes_before, kept_order, next_view};
use pl_base::{NoMemory, PageId, View};
use pl_known::Known;
use pl_place::Query;
use std::alloc::Global;
use std::collections::HashSet;

// No more pages are looked up one by one: to go over all pages takes less time for each.
const MOST_LOOKED_UP: usize = 4_096;

/// The page of a view, which is one of those that are known, joins the others where the query takes
/// it.
pub fn add<'a>(
    alloc: Global,
    known: &Known,
    asked: &Asked<'_>,
    view: &'a View,
    found: &mut Vec<Found<'a>>,
) -> Result<(), NoMemory>
    requires followed { AreFollowed known.now }
    requires asked { IsAsked asked.now.query.now asked.now }
    requires view { view_of view.now.id known.now.views.items ≡ Some view.now }
    ensures { OnOk result (map seen found.new.items ≡ map seen found.old.items
        ++ map (seen_of asked.now.query.now.sort) (taken asked.now.query.now (view.now ∷ []))) }
{
    if decides(alloc, known, asked, view)? {
        let key = key_of(alloc, known, asked.query.sort, view)?;
        found.push(Found { view, key })?;
    }
    Ok(())
}

// All pages that the query takes, each asked.
fn all_pages<'a>(
    alloc: Global,
    known: &'a Known,
    asked: &Asked<'_>,
) -> Result<Vec<Found<'a>>, NoMemory>
    requires followed { AreFollowed known.now }
    requires asked { IsAsked asked.now.query.now asked.now }
    ensures { IfOk result (λ found. AreFound asked.now.query.now.sort
        (taken asked.now.query.now known.now.views.items) found.items) }
{
    let mut found = Vec::new(alloc);
    for view in &known.views {
        add(alloc, known, asked, view, &mut found)?;
    }
    Ok(found)
}

// The same, where the query may take it.
fn add_possible<'a>(
    alloc: Global,
    known: &Known,
    asked: &Asked<'_>,
    possible: &HashSet<PageId>,
    view: &'a View,
    found: &mut Vec<Found<'a>>,
) -> Result<(), NoMemory>
    requires followed { AreFollowed known.now }
    requires asked { IsAsked asked.now.query.now asked.now }
    requires possible { HavePossible asked.now.query.now known.now.views.items possible.now }
    requires view { view_of view.now.id known.now.views.items ≡ Some view.now }
    ensures { OnOk result (map seen found.new.items ≡ map seen found.old.items
        ++ map (seen_of asked.now.query.now.sort) (taken asked.now.query.now (view.now ∷ []))) }
{
    if !is_possible(possible, view) {
        return Ok(());
    }
    add(alloc, known, asked, view, found)
}

// All pages that the query takes, where these may have its words.
fn pages_among<'a>(
    alloc: Global,
    known: &'a Known,
    asked: &Asked<'_>,
    possible: &HashSet<PageId>,
) -> Result<Vec<Found<'a>>, NoMemory>
    requires followed { AreFollowed known.now }
    requires asked { IsAsked asked.now.query.now asked.now }
    requires possible { HavePossible asked.now.query.now known.now.views.items possible.now }
    ensures { IfOk result (λ found. AreFound asked.now.query.now.sort
        (taken asked.now.query.now known.now.views.items) found.items) }
{
    let mut found = Vec::new(alloc);
    for view in &known.views {
        add_possible(alloc, known, asked, possible, view, &mut found)?;
    }
    Ok(found)
}

// All pages that the query takes. Where it asks for words, no text is searched of most of those that
// lack one.
fn pages_taken<'a>(
    alloc: Global,
    known: &'a Known,
    asked: &Asked<'_>,
) -> Result<Vec<Found<'a>>, NoMemory>
    requires followed { AreFollowed known.now }
    requires asked { IsAsked asked.now.query.now asked.now }
    ensures { IfOk result (λ found. AreFound asked.now.query.now.sort
        (taken asked.now.query.now known.now.views.items) found.items) }
{
    match possible_pages(alloc, known, asked)? {
        Some(possible) => pages_among(alloc, known, asked, &possible),
        None => all_pages(alloc, known, asked),
    }
}

// The page with the URL, if the query takes it.
fn page_with_url<'a>(
    alloc: Global,
    known: &'a Known,
    asked: &Asked<'_>,
    url: &str,
) -> Result<Vec<Found<'a>>, NoMemory>
    requires followed { AreFollowed known.now }
    requires asked { IsAsked asked.now.query.now asked.now }
    requires url { asked.now.query.now.uri ≡ Some url.now }
    ensures { IfOk result (λ found. AreFound asked.now.query.now.sort
        (taken asked.now.query.now known.now.views.items) found.items) }
{
    let mut found = Vec::new(alloc);
    let Some(view) = known.find(url) else {
        return Ok(found);
    };
    add(alloc, known, asked, view, &mut found)?;
    Ok(found)
}

// Whether so many pages are found that the answer has none from the next one in an order on.
fn are_enough(found: &[Found<'_>], most: u32, order: KeptOrder, next: &View) -> bool
    ensures { result ≡ true → AreEnough order most next.now found.now }
{
    found.len() >= most as usize
        && found
            .last()
            .is_some_and(|last| comes_before(order, last.view, next))
}

// The first pages in a kept order that the query takes, so many that those of the answer are among
// them; none where too many would have to be looked up.
fn first_pages<'a>(
    alloc: Global,
    known: &'a Known,
    asked: &Asked<'_>,
    order: KeptOrder,
) -> Result<Option<Vec<Found<'a>>>, NoMemory>
    requires followed { AreFollowed known.now }
    requires asked { IsAsked asked.now.query.now asked.now }
    requires sort { asked.now.query.now.sort ≡ sort_of order }
    requires few { 0 < asked.now.query.now.max_results }
    ensures { IfOk result (λ first. IfSome first (λ found.
        Suffice asked.now.query.now known.now.views.items found.items)) }
{
    let mut found = Vec::new(alloc);
    let mut next = next_view(known, order, None);
    for _ in 0..MOST_LOOKED_UP {
        let Some(view) = next else {
            return Ok(Some(found));
        };
        if are_enough(&found, asked.query.max_results, order, view) {
            return Ok(Some(found));
        }
        add(alloc, known, asked, view, &mut found)?;
        next = next_view(known, order, Some(view));
    }
    Ok(None)
}

// The kept order that leads to the pages of the answer first, where not all pages are asked for.
fn order_asked(query: &Query) -> Option<KeptOrder>
    ensures sort { IfSome result (λ order. query.now.sort ≡ sort_of order) }
    ensures few { IfSome result (λ order. 0 < query.now.max_results) }
{
    if query.max_results == 0 {
        return None;
    }
    kept_order(query.sort)
}

/// Pages that the query takes, among them those of its answer.
pub fn candidates<'a>(
    alloc: Global,
    known: &'a Known,
    asked: &Asked<'_>,
) -> Result<Vec<Found<'a>>, NoMemory>
    requires followed { AreFollowed known.now }
    requires asked { IsAsked asked.now.query.now asked.now }
    ensures { IfOk result (λ found.
        Suffice asked.now.query.now known.now.views.items found.items) }
{
    if let Some(url) = &asked.query.uri {
        return page_with_url(alloc, known, asked, url.text());
    }
    if let Some(order) = order_asked(asked.query)
        && let Some(found) = first_pages(alloc, known, asked, order)?
    {
        return Ok(found);
    }
    pages_taken(alloc, known, asked)
}
