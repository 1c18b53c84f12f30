// Each command, performed.
ghost use Rattle.std.specs.Prelude.{◌≡◌, ◌≤◌, IsErrOf, OnOk, false};
ghost use Rattle.pl_base.specs.Live.{slot_limit};
ghost use Rattle.pl_base.specs.Rows.{IsSound, store_of};
ghost use Rattle.pl_base.specs.Store.{Store};
ghost use Rattle.pl_known.specs.declared.known.Known.{Known};
ghost use Rattle.pl_known.specs.Changes.{LeadTo};
ghost use Rattle.pl_known.specs.Known.{Knows};
ghost use Rattle.pl_step.specs.Commands.{HasDates, MayWantMemory, is_change};
ghost use Rattle.pl_step.specs.Step as spec;
ghost use Rattle.pl_engine.specs.Idle.{IsIdle};
ghost use Rattle.pl_done.specs.Performed.{Performs};
ghost use Rattle.pl_visiting.specs.NewDay.{ReadsFew};
ghost use Rattle.pl_visiting.specs.VisitPages.{AddsFewPages};

use pl_base::{Rows, Steps};
use pl_done::Done;
use pl_editing::{
    bookmark, folder, import, move_item, remove, restore, retitle, separator, tag, untag,
};
use pl_known::Known;
use pl_step::{Command, Reply, StepError};
use pl_told::{bar, fill, list, origin, page, place, query, stats};
use pl_visiting::{day, expire, forget, title, trim, unvisit, visit};
use std::alloc::Global;
use std::sync::ledger::Ledger;

// A reply of a command that leaves the rows as they are.
fn told(alloc: Global, reply: Reply) -> Done
    ensures reply { result.reply ≡ reply }
    ensures leads { (store : Store) → (known : Known) → Knows store known
        → LeadTo store known.views.items result.changes.items }
{
    Done {
        reply,
        changes: Vec::new(alloc),
    }
}

/// Performs a command on rows that may take so many slots, with what is known of their pages.
pub fn perform<R: Rows, L: Ledger>(
    alloc: Global,
    rows: &mut R,
    known: &Known,
    limit: u32,
    command: &Command,
    steps: &mut Steps<L>,
) -> Result<Done, StepError>
    requires dates { HasDates command.now }
    requires sound { IsSound (R.kept rows.old) }
    requires most { limit ≤ slot_limit }
    requires knows { Knows (store_of (R.kept rows.old)) known.now }
    ensures performs { Performs R.kept R.base
        (spec.perform limit (store_of (R.kept rows.old)) command.now)
        rows.old rows.new known.now result }
    ensures unchanged { OnOk result (is_change command.now ≡ false → rows.new ≡ rows.old) }
    ensures idle { OnOk result (IsIdle command.now (store_of (R.kept rows.old))
        → rows.new ≡ rows.old) }
    ensures pages { OnOk result (AddsFewPages command.now (store_of (R.kept rows.old))
        (R.pending rows.old) (R.pending rows.new)) }
    ensures reads { ReadsFew command.now (store_of (R.kept rows.old)) steps.old steps.new }
    ensures no_memory { IsErrOf result StepError.NoMemory
        → MayWantMemory limit (store_of (R.kept rows.old)) command.now }
{
    match command {
        Command::Day { day: to } => day(alloc, rows, known, *to, steps),
        Command::Visit {
            url,
            transition,
            date,
            source,
        } => visit(
            alloc,
            rows,
            known,
            limit,
            url,
            *transition,
            *date,
            *source,
            steps,
        ),
        Command::Title { url, text } => title(alloc, rows, known, limit, url, text, steps),
        Command::Page { url } => Ok(told(alloc, page(alloc, known, url)?)),
        Command::Origin { url } => Ok(told(alloc, origin(alloc, known, url)?)),
        Command::Stats => Ok(told(alloc, stats(rows, known, steps))),
        Command::Unvisit { visit } => unvisit(alloc, rows, known, *visit, steps),
        Command::Forget { url } => forget(alloc, rows, known, url, steps),
        Command::Expire { day } => expire(alloc, rows, known, *day, steps),
        Command::Trim { n } => trim(alloc, rows, known, *n, steps),
        Command::Folder {
            parent,
            place,
            title,
            date,
        } => folder(
            alloc, rows, known, limit, *parent, *place, title, *date, steps,
        ),
        Command::Bookmark {
            parent,
            place,
            url,
            title,
            date,
        } => bookmark(
            alloc, rows, known, limit, *parent, *place, url, title, *date, steps,
        ),
        Command::Separator {
            parent,
            place,
            date,
        } => separator(alloc, rows, known, limit, *parent, *place, *date, steps),
        Command::Move {
            item,
            parent,
            place,
            date,
        } => move_item(alloc, rows, known, *item, *parent, *place, *date, steps),
        Command::Retitle { item, title, date } => {
            retitle(alloc, rows, known, limit, *item, title, *date, steps)
        }
        Command::Remove { item } => remove(alloc, rows, known, *item, steps),
        Command::Tag { url, name, date } => {
            tag(alloc, rows, known, limit, url, name, *date, steps)
        }
        Command::Untag { url, name } => untag(alloc, rows, known, url, name, steps),
        Command::List { item } => Ok(told(alloc, list(alloc, rows, *item, steps)?)),
        Command::Query { query: asked } => Ok(told(
            alloc,
            query(alloc, rows, known, asked, steps)?,
        )),
        Command::Place { query } => Ok(told(alloc, place(alloc, query)?)),
        Command::Bar { max, text } => Ok(told(alloc, bar(alloc, rows, known, *max, text, steps)?)),
        Command::Fill { text } => Ok(told(alloc, fill(alloc, known, text, steps)?)),
        Command::Import(tree) => import(alloc, rows, known, limit, tree, steps),
        Command::Restore(tree) => restore(alloc, rows, known, limit, tree, steps),
    }
}
