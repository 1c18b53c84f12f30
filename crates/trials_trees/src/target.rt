// Where a visit to a URL goes, found by a walk over all pages of any rows.
ghost use Rattle.std.specs.Prelude.{◌≡◌, ◌&&◌, ℕ, List, Some, true, bytes_eq, IfOk};
ghost use Rattle.std.specs.Option.{option_map};
ghost use Rattle.pl_base.specs.Address as address;
ghost use Rattle.pl_base.specs.Rows.{IsOriginOf, has_page, store_of, url_of};
ghost use Rattle.pl_base.specs.Store.{Page};
ghost use Rattle.pl_base.specs.Visiting as spec;
ghost use Rattle.pl_history.specs.Target.{IsTargetOf};
ghost use Rattle.pl_marks.specs.UrlParts.{HasParts};

use pl_base::{NoMemory, PageId, Rows, Slot, Steps};
use pl_history::Target;
use pl_link::{Canon, Parts};
use pl_marks::parts_of;
use std::alloc::Global;
use std::sync::ledger::Ledger;

// Whether the page has the URL.
fn has_url<R: Rows, L: Ledger>(
    rows: &R,
    page: PageId,
    url: &str,
    steps: &mut Steps<L>,
) -> Result<bool, NoMemory>
    requires { has_page (R.kept rows.now) page ≡ true }
    ensures { IfOk result (λ has. Some has
        ≡ option_map (λ (text : List ℕ). bytes_eq text url.now) (url_of (R.kept rows.now) page)) }
{
    let text = rows.url(page, steps)?;
    Ok(text.as_str() == url)
}

// The page with the URL.
fn find_page<R: Rows, L: Ledger>(
    rows: &R,
    url: &str,
    steps: &mut Steps<L>,
) -> Result<Option<PageId>, NoMemory>
    ensures { IfOk result (λ page. page
        ≡ option_map (λ (p : Page). p.id)
        (spec.find_page url.now (store_of (R.kept rows.now)).pages)) }
{
    let mut next = rows.page_after(None, steps);
    while let Some(page) = next {
        if has_url(rows, page, url, steps)? {
            return Ok(Some(page));
        }
        next = rows.page_after(Some(page), steps);
    }
    Ok(None)
}

// Whether two URLs with these parts have the same origin.
fn have_same_origin(parts: &Parts, other: &Parts) -> bool
    ensures { result
        ≡ (bytes_eq parts.now.prefix other.now.prefix && bytes_eq parts.now.host other.now.host) }
{
    parts.prefix.as_str() == other.prefix.as_str() && parts.host.as_str() == other.host.as_str()
}

// Whether the page's URL has the same origin as one with these parts.
fn has_origin<R: Rows, L: Ledger>(
    alloc: Global,
    rows: &R,
    page: PageId,
    parts: &Parts,
    steps: &mut Steps<L>,
) -> Result<bool, NoMemory>
    requires { has_page (R.kept rows.now) page ≡ true }
    ensures { IfOk result (λ has. (url : List ℕ) → HasParts url parts.now
        → Some has ≡ option_map (λ (text : List ℕ). address.same_origin text url)
        (url_of (R.kept rows.now) page)) }
{
    let text = rows.url(page, steps)?;
    let own = parts_of(alloc, text.as_str())?;
    Ok(have_same_origin(&own, parts))
}

// The origin of a URL with these parts, if a page has it.
fn find_origin<R: Rows, L: Ledger>(
    alloc: Global,
    rows: &R,
    parts: &Parts,
    steps: &mut Steps<L>,
) -> Result<Option<Slot>, NoMemory>
    ensures { IfOk result (λ origin. (url : List ℕ) → HasParts url parts.now
        → IsOriginOf (R.kept rows.now) url origin) }
{
    let mut next = rows.page_after(None, steps);
    while let Some(page) = next {
        if has_origin(alloc, rows, page, parts, steps)? {
            return Ok(Some(rows.origin_of(page, steps)));
        }
        next = rows.page_after(Some(page), steps);
    }
    Ok(None)
}

/// Where a visit to the URL with these parts goes.
pub fn find_target<R: Rows, L: Ledger>(
    alloc: Global,
    rows: &R,
    url: &Canon,
    parts: &Parts,
    steps: &mut Steps<L>,
) -> Result<Target, NoMemory>
    requires { HasParts url.now parts.now }
    ensures { IfOk result (IsTargetOf (R.kept rows.now) url.now) }
{
    if let Some(page) = find_page(rows, url.text(), steps)? {
        return Ok(Target::Known(page));
    }
    Ok(Target::New(find_origin(alloc, rows, parts, steps)?))
}
