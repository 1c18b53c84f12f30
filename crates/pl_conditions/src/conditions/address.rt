// What is asked of a page's address.
ghost use Rattle.std.specs.Prelude.{◌≡◌, ◌∷◌, nat_eq};
ghost use Rattle.std.specs.List.{ends_with};
ghost use Rattle.pl_conditions.specs.AskedParts as parts;
ghost use Rattle.pl_conditions.specs.Conditions as spec;

use pl_base::Txt;
use pl_link::Canon;
use pl_place::Query;

/// Whether the URL is the one that is asked for, if any.
pub fn is_uri(uri: &Option<Canon>, url: &str) -> bool
    ensures { result ≡ spec.is_uri uri.now url.now }
{
    match uri {
        Some(uri) => url == uri.text(),
        None => true,
    }
}

/// Whether what is asked of the parts of a page's address holds.
pub fn is_url_asked(query: &Query, url: &Canon) -> bool
    ensures { result ≡ parts.is_url_asked query.now url.now }
{
    is_in_domain(&query.domain, query.domain_is_host, url)
        && !(query.exclude_queries && url.is_place())
}

// Whether the host of the URL lies in the domain, if there is one.
fn is_in_domain(domain: &Option<Txt>, is_host: bool, url: &Canon) -> bool
    ensures { result ≡ spec.is_in_domain domain.now is_host url.now }
{
    match domain {
        Some(domain) => is_host_in(domain.as_str(), is_host, url.host()),
        None => true,
    }
}

/// Whether the host is the domain, or lies below it where that is not ruled out.
pub fn is_host_in(domain: &str, is_host: bool, host: &str) -> bool
    ensures { result ≡ spec.is_host_in domain.now is_host host.now }
{
    host == domain || !is_host && is_below(domain, host)
}

// Whether the host ends with a full stop and the domain.
fn is_below(domain: &str, host: &str) -> bool
    ensures { result ≡ ends_with nat_eq host.now (46 ∷ domain.now) }
{
    match host.as_bytes().strip_suffix(domain.as_bytes()) {
        Some(front) => front.ends_with(b"."),
        None => false,
    }
}
