// Whether two orders of views are the same.
use pl_base::{Micros, PageId};
use pl_follow::OrderIndex;

/// Whether both have the same ranks by frecency and by visit, in the same order.
pub fn have_same_order(one: &OrderIndex, other: &OrderIndex) -> bool {
    run_alike_by_frecency(one, other) && run_alike_by_visit(one, other)
}

fn run_alike_by_frecency(one: &OrderIndex, other: &OrderIndex) -> bool {
    let mut place: Option<(i64, PageId)> = None;
    for rank in one.by_frecency() {
        place = other.after(place);
        if place != Some(*rank) {
            return false;
        }
    }
    other.after(place).is_none() && other.by_frecency().count() == one.by_frecency().count()
}

fn run_alike_by_visit(one: &OrderIndex, other: &OrderIndex) -> bool {
    let mut place: Option<(Micros, PageId)> = None;
    for rank in one.by_visit() {
        place = other.visited_before(place);
        if place != Some(*rank) {
            return false;
        }
    }
    other.visited_before(place).is_none() && other.by_visit().count() == one.by_visit().count()
}
