// Whether what an engine keeps of its pages answers as what another one keeps.
use pl_base::{NoMemory, Rows, View};
use pl_engine::Parts;
use pl_known::Known;
use std::alloc::Global;
use trials_views::have_same_order;

/// Whether both have the same views, and each follower answers alike.
pub fn are_alike<R: Rows>(alloc: Global, parts: &Parts<R>, made: &Known) -> Result<bool, NoMemory> {
    if parts.views != made.views || parts.totals.sums() != made.totals.sums() {
        return Ok(false);
    }
    Ok(have_same_order(&parts.order, &made.order) && tell_alike(alloc, parts, made)?)
}

// Whether the followers tell the same of each view.
fn tell_alike<R: Rows>(alloc: Global, parts: &Parts<R>, made: &Known) -> Result<bool, NoMemory> {
    for view in &made.views {
        if !is_told_alike(parts, made, view) || !is_due_alike(alloc, parts, made, view)? {
            return Ok(false);
        }
    }
    Ok(true)
}

fn is_told_alike<R: Rows>(parts: &Parts<R>, made: &Known, view: &View) -> bool {
    let prefix = view.prefix.as_str();
    let host = view.host.as_str();
    let url = view.url.as_str();
    parts.urls.find(url) == made.urls.find(url)
        && parts.texts.of(view.id) == made.texts.of(view.id)
        && parts.totals.total(prefix, host) == made.totals.total(prefix, host)
        && parts.totals.pages(prefix, host) == made.totals.pages(prefix, host)
        && parts.totals.first_page(prefix, host) == made.totals.first_page(prefix, host)
        && parts.totals.passes(host) == made.totals.passes(host)
}

fn is_due_alike<R: Rows>(
    alloc: Global,
    parts: &Parts<R>,
    made: &Known,
    view: &View,
) -> Result<bool, NoMemory> {
    let Some(day) = view.due else {
        return Ok(true);
    };
    let due = parts.calendar.due_through(alloc, day)?;
    Ok(due == made.calendar.due_through(alloc, day)?)
}
