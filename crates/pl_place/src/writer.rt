// A query, written as its canonical text.
ghost use Rattle.std.specs.Prelude.{◌≡◌, ◌∷◌, [], ◌++◌, ℕ, decimal, map, not};
ghost use Rattle.std.specs.Prelude.{All, IfOk, IfSome, OnOk};
ghost use Rattle.std.specs.Fmt.{signed_decimal};
ghost use Rattle.std.specs.List.{join_with_byte};
ghost use Rattle.percent_encoding.specs.AsciiSet.{should_percent_encode};
ghost use Rattle.pl_base.specs.NumberText.{number_32_of};
ghost use Rattle.pl_words.specs.TagName.{tag_named};
ghost use Rattle.pl_place.specs.declared.key.Key.TheVariants as keys;
ghost use Rattle.pl_place.specs.Canonical.{ReadsAlone, ReadsBack, ReadsId, ReadsTime};
ghost use Rattle.pl_place.specs.Canonical.{bookmark_pairs, canonical, for_each, id_text, if_not_0};
ghost use Rattle.pl_place.specs.Canonical.{if_there, if_true, is_unreserved, itself, number_text};
ghost use Rattle.pl_place.specs.Canonical.{option_pairs, page_pairs, pair, time_pairs, time_text};
ghost use Rattle.pl_place.specs.Canonical.{transition_text};
ghost use Rattle.pl_place.specs.PlaceText.{place_prefix};
ghost use Rattle.pl_place.specs.Values.{text_of, uri_of};

use crate::key::Key;
use crate::query::Query;
use percent_encoding::{AsciiSet, NON_ALPHANUMERIC, utf8_percent_encode};
use pl_base::{ItemId, NoMemory, Transition, Txt};
use pl_link::Canon;
use pl_words::TagName;
use std::alloc::Global;
use std::marker::Model;

/// The canonical text of a query: its pairs in one order, each where it says something.
pub fn write(alloc: Global, query: &Query) -> Result<Txt, NoMemory>
    ensures text { IfOk result (λ text. text ≡ canonical query.now) }

    // The text reads as this query, and as no other.
    ensures reads { IfOk result (ReadsAlone query.now) }
{
    let mut pairs = Pairs::new(alloc);
    pairs.push_times(query)?;
    pairs.push_page(query)?;
    pairs.push_bookmarks(query)?;
    pairs.push_options(query)?;
    pairs.text()
}

// The pairs of a text, each as it is written. What the methods say beside `pairs` is that the form
// of a value reads it back from its text.
#[derive(Drop)]
struct Pairs {
    alloc: Global,
    list: Vec<String>,
}

impl Model for Pairs {
    ghost use Rattle.std.specs.Prelude.{ℕ, List, map};
    ghost use Rattle.std.specs.String.{string_bytes};

    ghost Value = { List (List ℕ) };

    ghost view = { λ p. map string_bytes p.list.items };
}

impl Pairs {
    fn new(alloc: Global) -> Pairs
        ensures { result ≡ [] }
    {
        Pairs {
            alloc,
            list: Vec::new(alloc),
        }
    }

    fn push_times(&mut self, query: &Query) -> Result<(), NoMemory>
        ensures pairs { OnOk result (self.new ≡ self.old ++ time_pairs query.now) }
        ensures begin { OnOk result (IfSome query.now.begin_time ReadsTime) }
        ensures end { OnOk result (IfSome query.now.end_time ReadsTime) }
    {
        self.push_time(Key::BeginTime, query.begin_time)?;
        self.push_code(Key::BeginTimeRef, u32::from(query.begin_ref.number()))?;
        self.push_time(Key::EndTime, query.end_time)?;
        self.push_code(Key::EndTimeRef, u32::from(query.end_ref.number()))
    }

    fn push_page(&mut self, query: &Query) -> Result<(), NoMemory>
        ensures pairs { OnOk result (self.new ≡ self.old ++ page_pairs query.now) }
        ensures terms { OnOk result (IfSome query.now.terms (ReadsBack text_of itself)) }
        ensures domain { OnOk result (IfSome query.now.domain (ReadsBack text_of itself)) }
        ensures uri { OnOk result (IfSome query.now.uri (ReadsBack uri_of itself)) }
    {
        self.push_text(Key::Terms, &query.terms)?;
        self.push_count(Key::MinVisits, query.min_visits)?;
        self.push_count(Key::MaxVisits, query.max_visits)?;
        self.push_flag(Key::OnlyBookmarked, query.only_bookmarked)?;
        self.push_flag(Key::DomainIsHost, query.domain_is_host)?;
        self.push_text(Key::Domain, &query.domain)?;
        self.push_uri(&query.uri)
    }

    fn push_bookmarks(&mut self, query: &Query) -> Result<(), NoMemory>
        ensures pairs { OnOk result (self.new ≡ self.old ++ bookmark_pairs query.now) }
        ensures parents { OnOk result (All ReadsId query.now.parents) }
        ensures tags { OnOk result (All (ReadsBack tag_named itself) query.now.tags) }
    {
        self.push_parents(query.parents.as_slice())?;
        self.push_tags(query.tags.as_slice())?;
        self.push_flag(Key::NotTags, query.not_tags)?;
        self.push_transitions(query.transitions.as_slice())
    }

    fn push_options(&mut self, query: &Query) -> Result<(), NoMemory>
        ensures pairs { OnOk result (self.new ≡ self.old ++ option_pairs query.now) }
        ensures most { OnOk result (ReadsBack number_32_of decimal query.now.max_results) }
    {
        self.push_code(Key::Sort, u32::from(query.sort.number()))?;
        self.push_code(Key::Type, u32::from(query.result_type.number()))?;
        self.push_code(Key::QueryType, u32::from(query.query_type.number()))?;
        self.push_flag(Key::IncludeHidden, query.include_hidden)?;
        self.push_code(Key::MaxResults, query.max_results)?;
        self.push_flag(Key::ExcludeQueries, query.exclude_queries)
    }

    fn push_time(&mut self, key: Key, time: Option<i64>) -> Result<(), NoMemory>
        ensures pairs { OnOk result (self.new ≡ self.old ++ if_there key (time_text time)) }
        ensures own { IfSome time ReadsTime }
    {
        let Some(time) = time else {
            return Ok(());
        };
        self.push_signed(key, time)
    }

    fn push_signed(&mut self, key: Key, number: i64) -> Result<(), NoMemory>
        ensures pairs { OnOk result (self.new ≡ self.old ++ pair key (signed_decimal number) ∷ []) }
        ensures own { ReadsTime number }
    {
        let text = format!(in self.alloc; "{number}")?;
        self.push(key, &text)
    }

    fn push_count(&mut self, key: Key, count: Option<u32>) -> Result<(), NoMemory>
        ensures { OnOk result (self.new ≡ self.old ++ if_there key (number_text count)) }
    {
        let Some(count) = count else {
            return Ok(());
        };
        self.push_number(key, count)
    }

    // A number that is 0 says nothing.
    fn push_code(&mut self, key: Key, code: u32) -> Result<(), NoMemory>
        ensures pairs { OnOk result (self.new ≡ self.old ++ if_not_0 key code) }
        ensures own { ReadsBack number_32_of decimal code }
    {
        if code == 0 {
            return Ok(());
        }
        self.push_number(key, code)
    }

    fn push_flag(&mut self, key: Key, flag: bool) -> Result<(), NoMemory>
        ensures { OnOk result (self.new ≡ self.old ++ if_true key flag) }
    {
        if !flag {
            return Ok(());
        }
        self.push(key, "1")
    }

    fn push_text(&mut self, key: Key, text: &Option<Txt>) -> Result<(), NoMemory>
        ensures pairs { OnOk result (self.new ≡ self.old ++ if_there key text.now) }
        ensures own { IfSome text.now (ReadsBack text_of itself) }
    {
        let Some(text) = text else {
            return Ok(());
        };
        self.push(key, text.as_str())
    }

    fn push_uri(&mut self, uri: &Option<Canon>) -> Result<(), NoMemory>
        ensures pairs { OnOk result (self.new ≡ self.old ++ if_there keys.Uri uri.now) }
        ensures own { IfSome uri.now (ReadsBack uri_of itself) }
    {
        let Some(uri) = uri else {
            return Ok(());
        };
        self.push(Key::Uri, uri.text())
    }

    fn push_parents(&mut self, parents: &[ItemId]) -> Result<(), NoMemory>
        ensures pairs { OnOk result (self.new ≡ self.old
            ++ for_each keys.Parent (map id_text parents.now)) }
        ensures own { OnOk result (All ReadsId parents.now) }
    {
        for parent in parents {
            self.push_number(Key::Parent, parent.0)?;
        }
        Ok(())
    }

    fn push_tags(&mut self, tags: &[TagName]) -> Result<(), NoMemory>
        ensures pairs { OnOk result (self.new ≡ self.old ++ for_each keys.Tag tags.now) }
        ensures own { OnOk result (All (ReadsBack tag_named itself) tags.now) }
    {
        for tag in tags {
            self.push(Key::Tag, tag.text())?;
        }
        Ok(())
    }

    fn push_transitions(&mut self, transitions: &[Transition]) -> Result<(), NoMemory>
        ensures { OnOk result (self.new ≡ self.old
            ++ for_each keys.Transition (map transition_text transitions.now)) }
    {
        for transition in transitions {
            self.push_number(Key::Transition, u32::from(transition.number()))?;
        }
        Ok(())
    }

    fn push_number(&mut self, key: Key, number: u32) -> Result<(), NoMemory>
        ensures pairs { OnOk result (self.new ≡ self.old ++ pair key (decimal number) ∷ []) }
        ensures own { ReadsBack number_32_of decimal number }
    {
        let text = format!(in self.alloc; "{number}")?;
        self.push(key, &text)
    }

    fn push(&mut self, key: Key, value: &str) -> Result<(), NoMemory>
        ensures { OnOk result (self.new ≡ self.old ++ pair key value.now ∷ []) }
    {
        let mut text = String::from_str(self.alloc, key.name())?;
        text.push('=')?;
        utf8_percent_encode(value, escaped_set()).append_to(&mut text)?;
        self.list.push(text)?;
        Ok(())
    }

    // The whole text.
    fn text(&self) -> Result<Txt, NoMemory>
        ensures { IfOk result (λ text. text ≡ place_prefix ++ join_with_byte 38 self.now) }
    {
        let mut text = String::from_str(self.alloc, "place:")?;
        text.push_str(&self.list.join(self.alloc, "&")?)?;
        Ok(Txt::from(text))
    }
}

// What is escaped in a value: all but the unreserved characters of RFC 3986.
fn escaped_set() -> AsciiSet
    ensures { (b : ℕ) → should_percent_encode result b ≡ not (is_unreserved b) }
{
    NON_ALPHANUMERIC
        .remove(b'-')
        .remove(b'_')
        .remove(b'.')
        .remove(b'~')
}
