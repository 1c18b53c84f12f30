// Where a visit goes: to the page with its URL, or else to the origin of the URL; and whether a
// page is a query.
ghost use Rattle.std.specs.Prelude.{◌≡◌, ℕ, List, Some, true, IfOk, IfSome};
ghost use Rattle.std.specs.Option.{option_map};
ghost use Rattle.pl_base.specs.Address.{is_place_url, origin_of_url};
ghost use Rattle.pl_base.specs.Rows.{Kept, has_page, url_of};
ghost use Rattle.pl_history.specs.Addresses.{HaveAddresses};
ghost use Rattle.pl_history.specs.Target.{is_new};

use pl_base::{NoMemory, PageId, Rows, Slot, Steps, View};
use pl_marks::parts_of;
use std::alloc::Global;
use std::sync::ledger::Ledger;

/// Where a visit goes: to the page with its URL, or to a new page in this origin or in a new one.
#[derive(Clone, Copy, Debug, PartialEq, Eq)]
pub enum Target {
    Known(PageId),
    New(Option<Slot>),
}

impl Target {
    pub fn is_new(self) -> bool
        ensures { result ≡ is_new self }
    {
        matches!(self, Target::New(_))
    }
}

/// Whether the prefix is that of a query, and so the page's URL is one.
pub(crate) fn has_place_prefix(view: &View) -> bool
    ensures { (url : List ℕ) → origin_of_url url ≡ Some (view.now.prefix, view.now.host)
        → result ≡ is_place_url url }
{
    let prefix = view.prefix.as_str();
    prefix == "place:" || prefix == "place://"
}

// The same of the view of the page, where it is found among the views.
fn is_place_by_view(views: &[View], page: PageId) -> Option<bool>
    ensures { IfSome result (λ place. (kept : Kept)
        → HaveAddresses views.now kept → has_page kept page ≡ true
        → Some place ≡ option_map is_place_url (url_of kept page)) }
{
    let place = views.partition_point(|view| view.id.0 < page.0);
    let view = views.get(place)?;
    if view.id == page {
        Some(has_place_prefix(view))
    } else {
        None
    }
}

/// Whether the page's URL is a query. No text is read where its view is among these, which stand by
/// ascending id.
pub fn is_place<R: Rows, L: Ledger>(
    alloc: Global,
    rows: &R,
    views: &[View],
    page: PageId,
    steps: &mut Steps<L>,
) -> Result<bool, NoMemory>
    requires page { has_page (R.kept rows.now) page ≡ true }
    requires views { HaveAddresses views.now (R.kept rows.now) }
    ensures { IfOk result (λ place. Some place
        ≡ option_map is_place_url (url_of (R.kept rows.now) page)) }
{
    if let Some(is_place) = is_place_by_view(views, page) {
        return Ok(is_place);
    }
    let text = rows.url(page, steps)?;
    let parts = parts_of(alloc, text.as_str())?;
    Ok(parts.is_place)
}
