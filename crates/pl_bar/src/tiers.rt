// In which tier a page is offered.
ghost use Rattle.std.specs.Prelude.{◌≡◌, ◌≤◌, ◌+◌, ◌&&◌, ◌||◌, nat_lt, not, true};
ghost use Rattle.pl_base.specs.Marks.{visit_count};
ghost use Rattle.pl_base.specs.Rows.{IsRight, has_page, store_of};
ghost use Rattle.pl_base.specs.Tags.{is_bookmarked, is_tagged};
ghost use Rattle.pl_bar.specs.Cost.{page_cost};
ghost use Rattle.pl_bar.specs.Followers.{HaveTexts};
ghost use Rattle.pl_bar.specs.Offers.{TellsTier, has_counted};
ghost use Rattle.pl_bar.specs.Sketches.{TellsTexts};

use crate::asked::Asked;
use crate::items::{Wanted, has_wanted};
use crate::wording::words_stand;
use pl_base::{PageId, Rows, Steps};
use pl_follow::FoldedTexts;
use pl_sketch::Sketch;
use pl_words::{Marks, Standing};
use std::sync::ledger::Ledger;

// Whether the page was visited, is bookmarked and has a tag, as far as these are asked.
fn is_kept<R: Rows, L: Ledger>(rows: &R, page: PageId, marks: Marks, steps: &mut Steps<L>) -> bool
    requires page { has_page (R.kept rows.now) page ≡ true }
    requires right { IsRight (R.kept rows.now) }
    ensures kept { result ≡ ((not marks.history
        || nat_lt 0 (visit_count (store_of (R.kept rows.now)) page))
        && ((not marks.bookmark || is_bookmarked (store_of (R.kept rows.now)) page)
        && (not marks.tag || is_tagged (store_of (R.kept rows.now)) page))) }
    ensures cost { steps.new ≤ steps.old + page_cost (store_of (R.kept rows.now)) page }
{
    if marks.history && rows.page_at(page, steps).unwrap().count == 0 {
        return false;
    }
    let wanted = Wanted {
        bookmark: marks.bookmark,
        tag: marks.tag,
    };
    has_wanted(rows, page, wanted, steps)
}

/// How well the words stand in a page whose frecency is not 0: `Nowhere` too where the marks do not
/// keep it. The sketch is that of its texts. The rows are asked only where the words are found.
pub fn tier<R: Rows, L: Ledger>(
    rows: &R,
    texts: &FoldedTexts,
    page: PageId,
    sketch: Sketch,
    asked: &Asked,
    steps: &mut Steps<L>,
) -> Standing
    requires right { IsRight (R.kept rows.now) }
    requires texts { HaveTexts (store_of (R.kept rows.now)) texts.now }
    requires counted { has_counted (store_of (R.kept rows.now)) page ≡ true }
    requires sketch { TellsTexts texts.now page sketch }
    ensures tier { TellsTier (store_of (R.kept rows.now)) asked.now.text page result }
    ensures cost { steps.new ≤ steps.old + page_cost (store_of (R.kept rows.now)) page }
{
    let standing = words_stand(texts, page, sketch, asked);
    if standing != Standing::Nowhere && !is_kept(rows, page, asked.text.marks, steps) {
        return Standing::Nowhere;
    }
    standing
}
