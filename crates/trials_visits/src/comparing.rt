// The visits of two forms of rows, walked along side by side.
use pl_base::{PageId, Rows, Steps, VisitId};
use std::sync::ledger::Ledger;

/// Whether the visits of a page are the same, in the same order.
pub fn same_order<A: Rows, B: Rows, L: Ledger>(
    one: &A,
    other: &B,
    page: PageId,
    steps: &mut Steps<L>,
) -> bool {
    let mut next = one.latest(page, steps);
    if other.latest(page, steps) != next {
        return false;
    }
    for _ in 0..one.visits(steps) {
        let Some(visit) = next else {
            return true;
        };
        next = one.older(visit, steps);
        if other.older(visit, steps) != next
            || one.visit_at(visit, steps) != other.visit_at(visit, steps)
        {
            return false;
        }
    }
    next.is_none()
}

/// Whether these came from a visit, in this order.
pub fn came_from<R: Rows, L: Ledger>(
    rows: &R,
    source: VisitId,
    targets: &[VisitId],
    steps: &mut Steps<L>,
) -> bool {
    let mut next = rows.first_target(source, steps);
    for target in targets {
        if next != Some(*target) {
            return false;
        }
        next = rows.next_target(*target, steps);
    }
    next.is_none()
}
