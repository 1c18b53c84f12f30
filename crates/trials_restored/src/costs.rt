// What a restore takes of stores behind lines, told of the trees of short backups.
ghost use Rattle.std.specs.Prelude.{◌≡◌, ◌<◌, ◌≤◌, IfOk};
ghost use Rattle.pl_base.specs.Rows.{IsSound};
ghost use Rattle.pl_nbread.specs.WellFormed.{AreWellFormed};
ghost use Rattle.pl_graft.specs.Import as spec;
ghost use Rattle.pl_graft.specs.Import.{most_rows};

use crate::cases::{CASES, Case};
use crate::stores::rows_behind;
use pl_backup::read;
use pl_base::{Rows, Steps};
use pl_graft::{MOST_ROWS, needed_anew, row_count};
use pl_linked::Linked;
use pl_nbread::{FILE_LIMIT, Tree};
use pl_plain::Flat;
use std::alloc::Global;
use std::marker::Brand;
use std::process::Abort;
use std::sync::ledger::{Blank, Ledger};
use std::test::Fail;

// The tree of a case's backup.
fn tree_of(alloc: Global, case: &Case) -> Result<Tree, Fail>
    ensures formed { IfOk result AreWellFormed }
    ensures few { IfOk result (λ tree. spec.row_count tree ≤ most_rows) }
{
    let (menu, mobile) = (case.menu, case.mobile);
    let text = format!(in alloc;
        "{{\"children\":[{{\"guid\":\"menu________\",\"children\":[{menu}]}},\
        {{\"guid\":\"mobile______\",\"children\":[{mobile}]}}]}}"
    )?;
    if text.len() >= FILE_LIMIT {
        return Err("too long".into());
    }
    let tree = read(alloc, text.as_bytes()).map_err(|_| "no tree")?;
    if row_count(&tree) > MOST_ROWS {
        return Err("too many rows".into());
    }
    Ok(tree)
}

fn expect_cost<R: Rows + Drop, L: Ledger>(
    rt: &impl Abort,
    alloc: Global,
    rows: R,
    case: &Case,
    steps: &mut Steps<L>,
) -> Result<(), Fail>
    requires { IsSound (R.kept rows) }
{
    let rows = rows_behind(alloc, rows, case.lines, steps)?;
    let tree = tree_of(alloc, case)?;
    let cost = needed_anew(alloc, &rows, &tree, steps)?;
    assert_eq!(rt; (cost.live, cost.pages, cost.items), case.cost);
    Ok(())
}

fn check<L: Ledger>(rt: &impl Abort, alloc: Global, blank: Blank) -> Result<(), Fail>
    requires name { blank.name ≡ L.name }
    requires parts { blank.parts ≡ L.parts }
    requires some { 0 < blank.parts }
{
    let mut steps = Steps::<L>::none(blank);
    for case in CASES {
        expect_cost(rt, alloc, Flat::opening(alloc)?, case, &mut steps)?;
        expect_cost(rt, alloc, Linked::opening(alloc)?, case, &mut steps)?;
    }
    Ok(())
}

#[test]
fn a_restore_takes_what_is_told(rt: HostRuntime) -> Result<(), Fail> {
    check::<Brand>(&rt, rt.alloc(), Blank::new(1))
}
