// The pages that a query takes by the times of their visits.
ghost use Rattle.std.specs.Prelude.{◌≡◌, ◌++◌, ◌∷◌, [], Some, map, IfOk, OnOk};
ghost use Rattle.std.specs.List.{filter};
ghost use Rattle.pl_base.specs.Marks.{last_date_of};
ghost use Rattle.pl_base.specs.Rows.{store_of};
ghost use Rattle.pl_base.specs.View.{AreViewsOf};
ghost use Rattle.pl_conditions.specs.Asked as conditions;
ghost use Rattle.pl_indexed.specs.Asked.{IsAsked};
ghost use Rattle.pl_indexed.specs.Found.{AreFound, seen, seen_of};
ghost use Rattle.pl_known.specs.Known.{AreFollowed, view_of};
ghost use Rattle.pl_timed.specs.Timed as spec;

use crate::visits::{is_before_times, is_visited};
use pl_base::{NoMemory, Rows, Steps, View};
use pl_conditions::Asked as Timed;
use pl_indexed::{Asked, Found, decides, key_of};
use pl_known::Known;
use std::alloc::Global;
use std::sync::ledger::Ledger;

// Whether the query takes the page of a view, which is one of those that are known.
fn takes<R: Rows, L: Ledger>(
    alloc: Global,
    rows: &R,
    known: &Known,
    timed: &Timed<'_>,
    asked: &Asked<'_>,
    view: &View,
    steps: &mut Steps<L>,
) -> Result<bool, NoMemory>
    requires followed { AreFollowed known.now }
    requires times { conditions.IsAsked (store_of (R.kept rows.now)) timed.now.query.now
        timed.now }
    requires asked { IsAsked asked.now.query.now asked.now }
    requires same { asked.now.query.now ≡ timed.now.query.now }
    requires view { view_of view.now.id known.now.views.items ≡ Some view.now }
    requires last { view.now.last ≡ last_date_of (store_of (R.kept rows.now)) view.now.id }
    ensures { IfOk result (λ taken. taken
        ≡ spec.takes (store_of (R.kept rows.now)) timed.now.query.now view.now) }
{
    if is_before_times(timed, view) {
        return Ok(false);
    }
    if !decides(alloc, known, asked, view)? {
        return Ok(false);
    }
    Ok(is_visited(rows, timed, view, steps))
}

// The page of a view, which is one of those that are known, joins the others where the query takes
// it.
fn add<'a, R: Rows, L: Ledger>(
    alloc: Global,
    rows: &R,
    known: &Known,
    timed: &Timed<'_>,
    asked: &Asked<'_>,
    view: &'a View,
    found: &mut Vec<Found<'a>>,
    steps: &mut Steps<L>,
) -> Result<(), NoMemory>
    requires followed { AreFollowed known.now }
    requires times { conditions.IsAsked (store_of (R.kept rows.now)) timed.now.query.now
        timed.now }
    requires asked { IsAsked asked.now.query.now asked.now }
    requires same { asked.now.query.now ≡ timed.now.query.now }
    requires view { view_of view.now.id known.now.views.items ≡ Some view.now }
    requires last { view.now.last ≡ last_date_of (store_of (R.kept rows.now)) view.now.id }
    ensures { let q = timed.now.query.now
        in OnOk result (map seen found.new.items ≡ map seen found.old.items
        ++ map (seen_of q.sort)
        (filter (spec.takes (store_of (R.kept rows.now)) q) (view.now ∷ []))) }
{
    if takes(alloc, rows, known, timed, asked, view, steps)? {
        let key = key_of(alloc, known, timed.query.sort, view)?;
        found.push(Found { view, key })?;
    }
    Ok(())
}

/// All pages that the query takes.
pub fn pages_in_times<'a, R: Rows, L: Ledger>(
    alloc: Global,
    rows: &R,
    known: &'a Known,
    timed: &Timed<'_>,
    asked: &Asked<'_>,
    steps: &mut Steps<L>,
) -> Result<Vec<Found<'a>>, NoMemory>
    requires views { AreViewsOf (store_of (R.kept rows.now)) known.now.views.items }
    requires followed { AreFollowed known.now }
    requires times { conditions.IsAsked (store_of (R.kept rows.now)) timed.now.query.now
        timed.now }
    requires asked { IsAsked asked.now.query.now asked.now }
    requires same { asked.now.query.now ≡ timed.now.query.now }
    ensures { let q = timed.now.query.now
        in IfOk result (λ found. AreFound q.sort
        (filter (spec.takes (store_of (R.kept rows.now)) q) known.now.views.items) found.items) }
{
    let mut found = Vec::new(alloc);
    for view in &known.views {
        add(alloc, rows, known, timed, asked, view, &mut found, steps)?;
    }
    Ok(found)
}
