// The answer to a query, and its canonical text.
ghost use Rattle.std.specs.Prelude.{◌≡◌, IfOk};
ghost use Rattle.pl_base.specs.Rows.{IsSound, store_of};
ghost use Rattle.pl_known.specs.Known.{Knows};
ghost use Rattle.pl_place.specs.Canonical.{canonical};
ghost use Rattle.pl_step.specs.Step as spec;

use pl_base::{NoMemory, Rows, Seq, Steps};
use pl_known::Known;
use pl_marked::answer;
use pl_place::{Query, write};
use pl_step::Reply;
use std::alloc::Global;
use std::sync::ledger::Ledger;

/// The rows that answer the query.
pub fn query<R: Rows, L: Ledger>(
    alloc: Global,
    rows: &R,
    known: &Known,
    query: &Query,
    steps: &mut Steps<L>,
) -> Result<Reply, NoMemory>
    requires sound { IsSound (R.kept rows.now) }
    requires knows { Knows (store_of (R.kept rows.now)) known.now }
    ensures { IfOk result (λ reply. reply
        ≡ spec.query_reply (store_of (R.kept rows.now)) query.now) }
{
    Ok(Reply::Rows(Seq::from(answer(alloc, rows, known, query, steps)?)))
}

/// The canonical text of the query.
pub fn place(alloc: Global, query: &Query) -> Result<Reply, NoMemory>
    ensures { IfOk result (λ reply. reply ≡ Reply.Place (canonical query.now)) }
{
    Ok(Reply::Place(write(alloc, query)?))
}
