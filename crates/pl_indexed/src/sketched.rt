// The pages that may have the words of a query, by the sketches of their texts.
ghost use Rattle.std.specs.Prelude.{◌≡◌, List, Some, false, true, IfOk, IfSome, OnOk};
ghost use Rattle.pl_base.specs.declared.id.PageId.{PageId};
ghost use Rattle.pl_base.specs.declared.view.View.{View};
ghost use Rattle.pl_sketch.specs.Pairs.{Covers};
ghost use Rattle.pl_known.specs.Known.{AreFollowed, view_of};
ghost use Rattle.pl_place.specs.declared.query.Query.{Query};
ghost use Rattle.pl_query.specs.Decides.{decides};
ghost use Rattle.pl_indexed.specs.Asked.{IsAsked};
ghost use Rattle.pl_indexed.specs.Sketched.{HaveCovered, HavePossible, has_page};

use crate::asked::{Asked, has_own_title};
use pl_base::{NoMemory, PageId, View};
use pl_known::Known;
use pl_sketch::Sketch;
use pl_sought::sketch_of_words;
use std::alloc::Global;
use std::collections::HashSet;

// Where more pages may have the words, to pass by the others saves too little.
const MOST_KEPT: usize = 4_096;

// The page joins the others where its sketch covers that of the words.
fn keep_covered(
    pages: &mut HashSet<PageId>,
    page: PageId,
    sketch: Sketch,
    words: Sketch,
) -> Result<(), NoMemory>
    ensures covered { OnOk result (Covers sketch words → has_page pages.new page ≡ true) }
    ensures others { OnOk result ((other : PageId)
        → has_page pages.old other ≡ true → has_page pages.new other ≡ true) }
{
    if sketch.covers(words) {
        pages.insert(page)?;
    }
    Ok(())
}

// The pages whose sketches cover that of the words; none where they are too many.
fn covered_pages(
    alloc: Global,
    known: &Known,
    words: Sketch,
) -> Result<Option<HashSet<PageId>>, NoMemory>
    requires { AreFollowed known.now }
    ensures { IfOk result (λ pages. IfSome pages (HaveCovered known.now.views.items words)) }
{
    let mut pages = HashSet::new(alloc);
    // No frecency is so great.
    let entries = known.order.behind((i64::MAX, PageId(0)));
    for (rank, sketch) in entries {
        if pages.len() >= MOST_KEPT {
            return Ok(None);
        }
        keep_covered(&mut pages, rank.1, *sketch, words)?;
    }
    Ok(Some(pages))
}

/// The pages that may have the words of a query, of those whose own titles are searched; none where
/// no words are asked, or too many pages may have them.
pub fn possible_pages(
    alloc: Global,
    known: &Known,
    asked: &Asked<'_>,
) -> Result<Option<HashSet<PageId>>, NoMemory>
    requires followed { AreFollowed known.now }
    requires asked { IsAsked asked.now.query.now asked.now }
    ensures { IfOk result (λ pages. IfSome pages
        (HavePossible asked.now.query.now known.now.views.items)) }
{
    if asked.words.is_empty() {
        return Ok(None);
    }
    covered_pages(alloc, known, sketch_of_words(&asked.words))
}

/// Whether the query may take the view: it is of one of these pages, or the title of the page is not
/// in its sketch.
pub fn is_possible(pages: &HashSet<PageId>, view: &View) -> bool
    ensures { (q : Query) (views : List View) → HavePossible q views pages.now
        → view_of view.now.id views ≡ Some view.now → result ≡ false → decides q view.now ≡ false }
{
    pages.contains(&view.id) || !has_own_title(view)
}
