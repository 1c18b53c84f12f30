// What is asked by what was said.
ghost use Rattle.std.specs.Prelude.{◌≡◌, ◌==◌, ◌&&◌, not, false, true, is_some, length, unwrap_or};
ghost use Rattle.std.specs.Option.{option_and_then};
ghost use Rattle.pl_place.specs.PlaceText as spec;
ghost use Rattle.pl_place.specs.QueryForm.{are_terms, has_domain, has_tags, has_time, is_count};
ghost use Rattle.pl_place.specs.Values.{count_asked, terms_asked};

use crate::kinds::TimeRef;
use pl_base::{Seq, Txt};
use pl_words::TagName;

/// A reference, which says nothing without its time.
pub(crate) fn with_time(time: Option<i64>, reference: Option<TimeRef>) -> TimeRef
    ensures value { result ≡ spec.with_time time reference }
    ensures form { has_time time result ≡ true }
{
    match time {
        Some(_) => reference.unwrap_or(TimeRef::Epoch),
        None => TimeRef::Epoch,
    }
}

/// Terms, if there is any.
pub(crate) fn terms(terms: Option<Txt>) -> Option<Txt>
    ensures value { result ≡ option_and_then terms_asked terms }
    ensures form { are_terms result ≡ true }
{
    terms.filter(|text| !text.as_str().is_empty())
}

/// A number of visits; one below 0 is no condition.
pub(crate) fn count(count: Option<i32>) -> Option<u32>
    ensures value { result ≡ option_and_then count_asked count }
    ensures form { is_count result ≡ true }
{
    u32::try_from(count?).ok()
}

/// Whether a host is to be the domain itself, which says nothing without a domain.
pub(crate) fn of_domain(domain: &Option<Txt>, is_host: Option<bool>) -> bool
    ensures value { result ≡ (is_some domain.now && unwrap_or is_host false) }
    ensures form { has_domain domain.now result ≡ true }
{
    domain.is_some() && is_host.unwrap_or(false)
}

/// Whether none of the tags is to be there, which says nothing without tags.
pub(crate) fn of_tags(tags: &Seq<TagName>, not_tags: Option<bool>) -> bool
    ensures value { result ≡ (not (length tags.now == 0) && unwrap_or not_tags false) }
    ensures form { has_tags tags.now result ≡ true }
{
    !tags.as_slice().is_empty() && not_tags.unwrap_or(false)
}
