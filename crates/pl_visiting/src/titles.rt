// A title, given to a page of the rows.
ghost use Rattle.std.specs.Prelude.{◌≡◌, ◌≤◌, ◌∷◌, [], Some, length, true, IfOk, OnOk};
ghost use Rattle.std.specs.List.{Contains};
ghost use Rattle.pl_base.specs.Good.{longest_title};
ghost use Rattle.pl_base.specs.Live.{slot_limit};
ghost use Rattle.pl_base.specs.Rows.{IsSound, has_page, store_of, title_of, with_title};
ghost use Rattle.pl_known.specs.declared.known.Known.{Known};
ghost use Rattle.pl_known.specs.Known.{Knows};
ghost use Rattle.pl_step.specs.Step as spec;
ghost use Rattle.pl_done.specs.Performed.{Performs};
ghost use Rattle.pl_visiting.specs.Titled.{titling, within_slots};

use pl_base::{Change, NoMemory, Refusal, Rows, Steps, Txt, View, chunks, cut_title};
use pl_done::{Done, is_full};
use pl_known::Known;
use pl_link::Canon;
use pl_step::{Command, Reply, StepError};
use std::alloc::Global;
use std::sync::ledger::Ledger;

// The view with another title.
fn titled(alloc: Global, old: &View, title: &str) -> Result<View, NoMemory>
    ensures { IfOk result (λ view. view ≡ record old.now { title = title.now }) }
{
    Ok(View {
        title: Txt::copied(alloc, title)?,
        ..old.copied(alloc)?
    })
}

// The change of a view that gets the title.
fn title_change(alloc: Global, old: &View, title: &str) -> Result<Vec<Change>, NoMemory>
    ensures { IfOk result (λ changes. changes.items ≡ titling title.now old.now ∷ []) }
{
    let mut changes = Vec::new(alloc);
    changes.push(Change {
        old: Some(old.copied(alloc)?),
        new: Some(titled(alloc, old, title)?),
    })?;
    Ok(changes)
}

// The page of the view has the title from then on, where there are slots for it.
fn set_title<R: Rows, L: Ledger>(
    alloc: Global,
    rows: &mut R,
    limit: u32,
    view: &View,
    title: &str,
    steps: &mut Steps<L>,
) -> Result<Done, StepError>
    requires page { has_page (R.kept rows.old) view.now.id ≡ true }
    requires old { title_of (R.kept rows.old) view.now.id ≡ Some view.now.title }
    requires title { length title.now ≤ longest_title }
    requires sound { IsSound (R.kept rows.old) }
    requires most { limit ≤ slot_limit }
    ensures performs { (known : Known) → Knows (store_of (R.kept rows.old)) known
        → Contains known.views.items view.now → Performs R.kept R.base
        (within_slots limit (store_of (R.kept rows.old))
        (store_of (with_title view.now.id title.now (R.kept rows.old))))
        rows.old rows.new known result }
    ensures same { OnOk result (store_of (with_title view.now.id title.now (R.kept rows.old))
        ≡ store_of (R.kept rows.old) → rows.new ≡ rows.old) }
{
    if view.title.as_str() == title {
        return Ok(Done {
            reply: Reply::Done,
            changes: Vec::new(alloc),
        });
    }
    let before = rows.live(steps);
    let after = before - chunks(view.title.as_str()) + chunks(title);
    if is_full(limit, before, after) {
        return Err(StepError::Refused(Refusal::Full(after)));
    }
    rows.set_title(view.id, title, steps)?;
    let changes = title_change(alloc, view, title)?;
    Ok(Done {
        reply: Reply::Done,
        changes,
    })
}

/// A title for the page of the URL, on rows that may take so many slots.
pub fn title<R: Rows, L: Ledger>(
    alloc: Global,
    rows: &mut R,
    known: &Known,
    limit: u32,
    url: &Canon,
    text: &Txt,
    steps: &mut Steps<L>,
) -> Result<Done, StepError>
    requires sound { IsSound (R.kept rows.old) }
    requires most { limit ≤ slot_limit }
    requires knows { Knows (store_of (R.kept rows.old)) known.now }
    ensures performs { Performs R.kept R.base
        (spec.perform limit (store_of (R.kept rows.old)) (Command.Title url.now text.now))
        rows.old rows.new known.now result }
    // A title that stands leaves the very same rows.
    ensures same { OnOk result (spec.after_title (store_of (R.kept rows.old)) url.now text.now
        ≡ store_of (R.kept rows.old) → rows.new ≡ rows.old) }
{
    let Some(view) = known.find(url.text()) else {
        return Err(StepError::Refused(Refusal::NoPage));
    };
    set_title(alloc, rows, limit, view, cut_title(text.as_str()), steps)
}
