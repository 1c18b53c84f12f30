// A query as it is gathered from the pieces of a text.
ghost use Rattle.std.specs.Prelude.{◌≡◌, ◌++◌, ℕ, List, [], true, None, IfOk, OnOk};
ghost use Rattle.std.specs.Option.{is_some, option_to_list};
ghost use Rattle.pl_place.specs.Draft.{Holds, with_value};
ghost use Rattle.pl_place.specs.PlaceText.{Reads, pieces_of, refused_piece};
ghost use Rattle.pl_place.specs.QueryForm.{is_domain};
ghost use Rattle.pl_place.specs.Values.{is_value};

use crate::firsts::{by_number, first_items};
use crate::gathered::Gathered;
use crate::key::Key;
use crate::kinds::{QueryType, ResultType, TimeRef};
use crate::query::Query;
use crate::sort::Sort;
use crate::{asked, value};
use pl_base::{ItemId, NoMemory, Transition, Txt, number_32};
use pl_link::Canon;
use pl_words::{TagName, first_tags};
use std::alloc::Global;

/// What the pieces so far say of each key: the last one, or all where a key gathers its values.
#[derive(Drop)]
pub(crate) struct Draft {
    begin_time: Option<i64>,
    begin_ref: Option<TimeRef>,
    end_time: Option<i64>,
    end_ref: Option<TimeRef>,
    terms: Option<Txt>,
    min_visits: Option<i32>,
    max_visits: Option<i32>,
    only_bookmarked: Option<bool>,
    domain_is_host: Option<bool>,
    domain: Option<Txt>,
    uri: Option<Canon>,
    parents: Gathered<ItemId>,
    tags: Gathered<TagName>,
    not_tags: Option<bool>,
    transitions: Gathered<Transition>,
    sort: Option<Sort>,
    result_type: Option<ResultType>,
    query_type: Option<QueryType>,
    include_hidden: Option<bool>,
    max_results: Option<u32>,
    exclude_queries: Option<bool>,
}

impl Draft {
    /// Nothing is said yet.
    pub(crate) fn new(alloc: Global) -> Self
        ensures { Holds [] result }
    {
        Draft {
            begin_time: None,
            begin_ref: None,
            end_time: None,
            end_ref: None,
            terms: None,
            min_visits: None,
            max_visits: None,
            only_bookmarked: None,
            domain_is_host: None,
            domain: None,
            uri: None,
            parents: Gathered::new(alloc),
            tags: Gathered::new(alloc),
            not_tags: None,
            transitions: Gathered::new(alloc),
            sort: None,
            result_type: None,
            query_type: None,
            include_hidden: None,
            max_results: None,
            exclude_queries: None,
        }
    }

    /// Adds what a piece says, and tells whether its value is of its key's form.
    pub(crate) fn add(&mut self, alloc: Global, key: Key, value: &[u8]) -> Result<bool, NoMemory>
        ensures formed { IfOk result (λ formed. formed ≡ is_value key value.now) }
        ensures added { OnOk result (self.new ≡ with_value key value.now self.old) }
    {
        match key {
            Key::BeginTime => Ok(tell(&mut self.begin_time, value::time(value))),
            Key::BeginTimeRef => Ok(tell(&mut self.begin_ref, value::time_ref(value))),
            Key::EndTime => Ok(tell(&mut self.end_time, value::time(value))),
            Key::EndTimeRef => Ok(tell(&mut self.end_ref, value::time_ref(value))),
            Key::Terms => Ok(tell(&mut self.terms, value::text(alloc, value)?)),
            Key::MinVisits => Ok(tell(&mut self.min_visits, value::count(value))),
            Key::MaxVisits => Ok(tell(&mut self.max_visits, value::count(value))),
            Key::OnlyBookmarked => Ok(tell(&mut self.only_bookmarked, value::truth(value))),
            Key::DomainIsHost => Ok(tell(&mut self.domain_is_host, value::truth(value))),
            Key::Domain => Ok(tell(&mut self.domain, value::domain(alloc, value)?)),
            Key::Uri => Ok(tell(&mut self.uri, value::uri(alloc, value)?)),
            Key::Parent => gather(&mut self.parents, value::parent(value)),
            Key::Tag => gather(&mut self.tags, value::tag(alloc, value)?),
            Key::NotTags => Ok(tell(&mut self.not_tags, value::truth(value))),
            Key::Transition => gather(&mut self.transitions, value::transition(value)),
            Key::Sort => Ok(tell(&mut self.sort, value::sort(value))),
            Key::Type => Ok(tell(&mut self.result_type, value::result_type(value))),
            Key::QueryType => Ok(tell(&mut self.query_type, value::query_type(value))),
            Key::IncludeHidden => Ok(tell(&mut self.include_hidden, value::truth(value))),
            Key::MaxResults => Ok(tell(&mut self.max_results, number_32(value))),
            Key::ExcludeQueries => Ok(tell(&mut self.exclude_queries, value::truth(value))),
        }
    }

    /// The query that the pieces of a text say.
    pub(crate) fn query(self, alloc: Global) -> Result<Query, NoMemory>
        requires domain { is_domain self.domain ≡ true }
        ensures { (text : List ℕ) → refused_piece text ≡ None → Holds (pieces_of text) self
            → IfOk result (Reads text) }
    {
        let tags = first_tags(alloc, self.tags.into_vec())?;
        Ok(Query {
            begin_time: self.begin_time,
            begin_ref: asked::with_time(self.begin_time, self.begin_ref),
            end_time: self.end_time,
            end_ref: asked::with_time(self.end_time, self.end_ref),
            terms: asked::terms(self.terms),
            min_visits: asked::count(self.min_visits),
            max_visits: asked::count(self.max_visits),
            only_bookmarked: self.only_bookmarked.unwrap_or(false),
            domain_is_host: asked::of_domain(&self.domain, self.domain_is_host),
            domain: self.domain,
            uri: self.uri,
            parents: first_items(alloc, &self.parents.into_vec())?,
            not_tags: asked::of_tags(&tags, self.not_tags),
            tags,
            transitions: by_number(alloc, &self.transitions.into_vec())?,
            sort: self.sort.unwrap_or(Sort::Unsorted),
            result_type: self.result_type.unwrap_or(ResultType::Pages),
            query_type: self.query_type.unwrap_or(QueryType::History),
            include_hidden: self.include_hidden.unwrap_or(false),
            max_results: self.max_results.unwrap_or(0),
            exclude_queries: self.exclude_queries.unwrap_or(false),
        })
    }
}

// Puts what is said last in its place, and tells whether it is anything.
fn tell<T: Drop>(place: &mut Option<T>, said: Option<T>) -> bool
    ensures said { place.new ≡ said }
    ensures formed { result ≡ is_some said }
{
    let formed = said.is_some();
    *place = said;
    formed
}

// Adds what is said, if it is anything, and tells whether it is.
fn gather<T: Drop>(list: &mut Gathered<T>, said: Option<T>) -> Result<bool, NoMemory>
    ensures said { OnOk result (list.new ≡ list.old ++ option_to_list said) }
    ensures formed { IfOk result (λ formed. formed ≡ is_some said) }
{
    match said {
        Some(item) => {
            list.push(item)?;
            Ok(true)
        }
        None => Ok(false),
    }
}
