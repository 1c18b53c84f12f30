ghost use Rattle.std.specs.Prelude.{◌≡◌, true};
ghost use Rattle.pl_words.specs.TagLists.{each_once, is_same_tag};
ghost use Rattle.pl_place.specs.QueryForm.{are_terms, ascend, has_domain, has_tags};
ghost use Rattle.pl_place.specs.QueryForm.{has_time, is_count, is_domain, is_same_item};

use crate::kinds::{QueryType, ResultType, TimeRef};
use crate::sort::Sort;
use pl_base::{ItemId, Seq, Transition, Txt};
use pl_link::Canon;
use pl_words::TagName;

/// A query of history or bookmarks, after nsINavHistoryQuery and nsINavHistoryQueryOptions. A row
/// is in its answer where each condition that is there holds of it.
#[derive(Debug, Drop)]
pub struct Query {
    /// A date is not before this many microseconds behind the reference.
    pub begin_time: Option<i64>,
    pub begin_ref: TimeRef,
    /// A date is not after this many microseconds behind the reference.
    pub end_time: Option<i64>,
    pub end_ref: TimeRef,
    /// Each word of the text stands in the page's title, its address or its tags.
    pub terms: Option<Txt>,
    /// The page's `visit_count` is at least, and at most.
    pub min_visits: Option<u32>,
    pub max_visits: Option<u32>,
    pub only_bookmarked: bool,
    /// The host is the domain itself, and not one below it.
    pub domain_is_host: bool,
    /// The host without its port is the domain, or lies below it. In lower case.
    pub domain: Option<Txt>,
    pub uri: Option<Canon>,
    /// A bookmark of the page is a child of one of these, if there are any.
    pub parents: Seq<ItemId>,
    /// The page has all these tags, or none of them.
    pub tags: Seq<TagName>,
    pub not_tags: bool,
    /// The page has a visit of each of these transitions, which stand by their numbers.
    pub transitions: Seq<Transition>,
    pub sort: Sort,
    pub result_type: ResultType,
    pub query_type: QueryType,
    /// Pages that are hidden are not left out.
    pub include_hidden: bool,
    /// The answer has no more rows; 0 where it has all.
    pub max_results: u32,
    /// Pages whose address is a query itself are left out.
    pub exclude_queries: bool,
    ghost begin_form: { has_time begin_time begin_ref ≡ true },
    ghost end_form: { has_time end_time end_ref ≡ true },
    ghost terms_form: { are_terms terms ≡ true },
    ghost min_form: { is_count min_visits ≡ true },
    ghost max_form: { is_count max_visits ≡ true },
    ghost host_form: { has_domain domain domain_is_host ≡ true },
    ghost domain_form: { is_domain domain ≡ true },
    ghost parents_form: { each_once is_same_item parents ≡ true },
    ghost tags_form: { each_once is_same_tag tags ≡ true },
    ghost not_tags_form: { has_tags tags not_tags ≡ true },
    ghost transitions_form: { ascend transitions ≡ true },
}
