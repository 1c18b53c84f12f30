// The words that a query looks for, in the texts of a view.
ghost use Rattle.std.specs.Prelude.{◌≡◌, IfOk, nat_eq, true};
ghost use Rattle.std.specs.List.{list_all, starts_with};
ghost use Rattle.pl_conditions.specs.Conditions as conditions;
ghost use Rattle.pl_query.specs.DecidedParts as parts;
ghost use Rattle.pl_query.specs.Decides.{has_word_in};

use pl_base::{NoMemory, Txt, View};
use pl_conditions::words_asked;
use pl_place::Query;
use pl_words::{fold, matches, searched};
use std::alloc::Global;

// The texts of a view in which words are looked for, folded.
#[derive(Drop)]
pub struct ViewTexts {
    title: Txt,
    address: Txt,
    tags: Txt,
}

// The texts of the view.
fn view_texts(alloc: Global, view: &View) -> Result<ViewTexts, NoMemory>
    requires prefix { starts_with nat_eq view.now.url view.now.prefix ≡ true }
    ensures { IfOk result (λ texts. texts ≡ parts.texts_of view.now) }
{
    Ok(ViewTexts {
        title: fold(alloc, view.title.as_str())?,
        address: searched(alloc, view.url.as_str(), view.prefix.as_str())?,
        tags: fold(alloc, view.tags.as_str())?,
    })
}

// Whether the word stands in one of the texts.
fn is_in_texts(texts: &ViewTexts, word: &Txt) -> bool
    ensures { result ≡ parts.is_in_texts texts.now word.now }
{
    matches(&texts.title, word, false)
        || matches(&texts.address, word, false)
        || matches(&texts.tags, word, false)
}

// Whether each word stands in one of the texts.
fn are_in_texts(texts: &ViewTexts, words: &[Txt]) -> bool
    ensures { result ≡ list_all (parts.is_in_texts texts.now) words.now }
{
    words.iter().all(|word| is_in_texts(texts, word))
}

/// Whether each word that the query looks for stands in the view's title, address or tags.
pub fn has_words_asked(alloc: Global, query: &Query, view: &View) -> Result<bool, NoMemory>
    requires prefix { starts_with nat_eq view.now.url view.now.prefix ≡ true }
    ensures { IfOk result (λ has. has
        ≡ list_all (has_word_in view.now) (conditions.words_asked query.now.terms)) }
{
    let words = words_asked(alloc, query)?;
    if words.is_empty() {
        return Ok(true);
    }
    let texts = view_texts(alloc, view)?;
    Ok(are_in_texts(&texts, &words))
}
