// What is known of a page.
ghost use Rattle.std.specs.Prelude.{◌≡◌, IfOk};
ghost use Rattle.pl_base.specs.Store.{Page, Store};
ghost use Rattle.pl_base.specs.View.{IsViewOf};
ghost use Rattle.pl_base.specs.Visiting as visiting;
ghost use Rattle.pl_known.specs.Known.{AreFollowed, Knows};
ghost use Rattle.pl_step.specs.Step as spec;
ghost use Rattle.pl_step.specs.StepErrors.{Says};

use pl_base::{NoMemory, Refusal, Txt, View};
use pl_known::Known;
use pl_link::Canon;
use pl_step::{Reply, StepError};
use std::alloc::Global;

// What is told of a page with this view.
fn told(alloc: Global, view: &View) -> Result<Reply, NoMemory>
    ensures { IfOk result (λ reply. (store : Store) → (p : Page) → IsViewOf store p view.now
        → reply ≡ spec.page_reply store p) }
{
    Ok(Reply::Page {
        id: view.id,
        frecency: view.frecency,
        count: view.count,
        last: view.last,
        typed: view.typed,
        hidden: view.hidden,
        bookmarked: view.bookmarked,
        url: Txt::copied(alloc, view.url.as_str())?,
        title: Txt::copied(alloc, view.title.as_str())?,
        tags: Txt::copied(alloc, view.tags.as_str())?,
    })
}

/// What is known of the page of the URL.
pub fn page(alloc: Global, known: &Known, url: &Canon) -> Result<Reply, StepError>
    requires followed { AreFollowed known.now }
    ensures { (store : Store) → Knows store known.now → Says
        (spec.told_page store (visiting.find_page url.now store.pages)) result }
{
    let Some(view) = known.find(url.text()) else {
        return Err(StepError::Refused(Refusal::NoPage));
    };
    Ok(told(alloc, view)?)
}
