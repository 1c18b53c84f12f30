// What is asked of a view before it comes to others.
ghost use Rattle.std.specs.Prelude.{◌≡◌, ◌<◌, ◌≤◌, ◌++◌, ◌∷◌, List, drop, length, nat_eq, take};
ghost use Rattle.std.specs.Prelude.{true};
ghost use Rattle.std.specs.List.{AllByRecursion, starts_with};
ghost use Rattle.pl_base.specs.declared.view.View.{View};
ghost use Rattle.pl_base.specs.Totals as totals;
ghost use Rattle.pl_follow.specs.Changes.{AreInOrder};
ghost use Rattle.pl_follow.specs.Urls.{IndexesUrls};
ghost use Rattle.trials_views.specs.Books.{NoneHas};

use pl_base::{PageId, Txt, View};
use pl_follow::UrlIndex;

// Whether the first so many views have smaller ids.
pub fn is_behind(views: &[View], count: usize, id: PageId) -> bool
    requires order { AreInOrder views.now }
    requires count { count ≤ length views.now }
    ensures { result ≡ true → AllByRecursion (λ (w : View). w.id.0 < id.0) (take count views.now) }
{
    if count == 0 {
        return true;
    }
    views[count - 1].id.0 < id.0
}

// Whether the views from a place on have greater ids.
pub fn is_before(views: &[View], place: usize, id: PageId) -> bool
    requires order { AreInOrder views.now }
    requires place { place ≤ length views.now }
    ensures { result ≡ true → AllByRecursion (λ (w : View). id.0 < w.id.0) (drop place views.now) }
{
    if place == views.len() {
        return true;
    }
    id.0 < views[place].id.0
}

// Whether no view has the URL.
pub fn is_new(known: &UrlIndex, url: &Txt) -> bool
    ensures { result ≡ true → (views : List View) → IndexesUrls known.now views
        → NoneHas url.now views }
{
    known.find(url.as_str()).is_none()
}

// Whether no view but the old one has the URL.
pub fn is_free(known: &UrlIndex, old: &View, url: &Txt) -> bool
    ensures { result ≡ true → (front back : List View)
        → IndexesUrls known.now (front ++ old.now ∷ back) → NoneHas url.now (front ++ back) }
{
    old.url == *url || is_new(known, url)
}

// Whether its URL begins with its prefix.
pub fn has_prefix(view: &View) -> bool
    ensures { result ≡ starts_with nat_eq view.now.url view.now.prefix }
{
    view.url.as_str().starts_with(view.prefix.as_str())
}

// What its frecency adds to a total.
pub fn share(view: &View) -> u64
    ensures { result ≡ totals.share view.now.frecency }
{
    u64::try_from(view.frecency).unwrap_or(0)
}
