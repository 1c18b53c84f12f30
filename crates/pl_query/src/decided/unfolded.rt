// The conditions for which nothing is folded.
ghost use Rattle.std.specs.Prelude.{◌≡◌, nat_eq};
ghost use Rattle.std.specs.List.{starts_with};
ghost use Rattle.pl_place.specs.PlaceText.{place_prefix};
ghost use Rattle.pl_query.specs.Decides as spec;

use pl_base::{View, all_digits};
use pl_conditions::{is_count_asked, is_host_in, is_uri};
use pl_place::Query;

/// Whether the page was visited, and its `visit_count`, its marks and its URL are as the query
/// asks. Its tags and its texts are what is left then.
pub fn holds_unfolded(query: &Query, view: &View) -> bool
    ensures { result ≡ spec.holds_unfolded query.now view.now }
{
    has_marks_asked(query, view) && has_url_asked(query, view)
}

// Whether the page was visited, and its `visit_count` and its marks are as the query asks.
fn has_marks_asked(query: &Query, view: &View) -> bool
    ensures { result ≡ spec.has_marks_asked query.now view.now }
{
    view.last.is_some()
        && is_count_asked(query, view.count)
        && (!query.only_bookmarked || view.bookmarked)
        && (query.include_hidden || !view.hidden)
}

// Whether the page's URL is as the query asks.
fn has_url_asked(query: &Query, view: &View) -> bool
    ensures { result ≡ spec.has_url_asked query.now view.now }
{
    is_uri(&query.uri, view.url.as_str())
        && is_host_asked(query, view.host.as_str())
        && !(query.exclude_queries && is_place(view.url.as_str()))
}

// Whether the URL begins as that of a query.
fn is_place(url: &str) -> bool
    ensures { result ≡ starts_with nat_eq url.now place_prefix }
{
    url.as_bytes().starts_with(b"place:")
}

// Whether the host, which may have a port, lies in the domain, if there is one.
fn is_host_asked(query: &Query, host: &str) -> bool
    ensures { result ≡ spec.is_host_asked query.now.domain query.now.domain_is_host host.now }
{
    match &query.domain {
        Some(domain) => is_host_in(domain.as_str(), query.domain_is_host, host_alone(host)),
        None => true,
    }
}

// The host without its port.
fn host_alone(host: &str) -> &str
    ensures { result.now ≡ spec.host_alone host.now }
{
    let Some((name, port)) = host.rsplit_once(':') else {
        return host;
    };
    if all_digits(port.as_bytes()) {
        name
    } else {
        host
    }
}
