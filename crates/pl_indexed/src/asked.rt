// A query that is made ready for many views, and the views that it takes.
ghost use Rattle.std.specs.Prelude.{◌≡◌, Some, true, IfOk};
ghost use Rattle.std.specs.List.{list_all};
ghost use Rattle.pl_base.specs.Fold.{folded};
ghost use Rattle.pl_follow.specs.Texts.{folded_of, searched_title};
ghost use Rattle.pl_base.specs.declared.view.View.{View};
ghost use Rattle.pl_known.specs.Known.{AreFollowed, view_of};
ghost use Rattle.pl_words.specs.Pieces.{occurs};
ghost use Rattle.pl_query.specs.Decides as spec;
ghost use Rattle.pl_query.specs.Decides.{has_word_in};
ghost use Rattle.pl_indexed.specs.Asked.{IsAsked};

use pl_base::{NoMemory, Txt, View};
use pl_conditions::{tags_asked, words_asked};
use pl_follow::Folded;
use pl_known::Known;
use pl_place::Query;
use pl_query::{has_tags_in, holds_unfolded};
use pl_words::{fold, matches};
use std::alloc::Global;

/// A query, and what is the same for every view.
#[derive(Drop)]
pub struct Asked<'a> {
    pub query: &'a Query,
    // The words that are looked for, folded.
    pub words: Vec<Txt>,
    // The folds of the tags.
    pub tags: Vec<Txt>,
}

impl<'a> Asked<'a> {
    pub fn of(alloc: Global, query: &'a Query) -> Result<Asked<'a>, NoMemory>
        ensures { IfOk result (IsAsked query.now) }
    {
        Ok(Asked {
            query,
            words: words_asked(alloc, query)?,
            tags: tags_asked(alloc, query)?,
        })
    }

    // Whether nothing is asked of the texts that are kept folded.
    fn asks_for_no_texts(&self) -> bool
        requires { IsAsked self.now.query.now self.now }
        ensures { result ≡ true → (view : View)
            → spec.decides self.now.query.now view ≡ spec.holds_unfolded self.now.query.now view }
    {
        self.words.is_empty() && self.tags.is_empty()
    }
}

/// Whether the title of the page itself is the one that is kept folded.
pub fn has_own_title(view: &View) -> bool
    ensures { result ≡ true → searched_title view.now ≡ view.now.title }
{
    view.mark_title.as_str().is_empty() || view.mark_title == view.title
}

/// The fold of the title of the page itself.
pub fn folded_title(alloc: Global, view: &View, texts: &Folded) -> Result<Txt, NoMemory>
    requires { texts.now ≡ folded_of view.now }
    ensures { IfOk result (λ title. title ≡ folded view.now.title) }
{
    if has_own_title(view) {
        return Txt::copied(alloc, texts.title.as_str());
    }
    fold(alloc, view.title.as_str())
}

// Whether the word stands in the title of the page itself.
fn is_in_title(alloc: Global, view: &View, texts: &Folded, word: &Txt) -> Result<bool, NoMemory>
    requires { texts.now ≡ folded_of view.now }
    ensures { IfOk result (λ is_in. is_in ≡ occurs word.now (folded view.now.title)) }
{
    if has_own_title(view) {
        return Ok(matches(&texts.title, word, false));
    }
    let title = fold(alloc, view.title.as_str())?;
    Ok(matches(&title, word, false))
}

// Whether the word stands in the page's address, its tags or its title.
fn has_word(alloc: Global, view: &View, texts: &Folded, word: &Txt) -> Result<bool, NoMemory>
    requires { texts.now ≡ folded_of view.now }
    ensures { IfOk result (λ has. has ≡ has_word_in view.now word.now) }
{
    if matches(&texts.address, word, false) || matches(&texts.tags, word, false) {
        return Ok(true);
    }
    is_in_title(alloc, view, texts, word)
}

fn has_words(alloc: Global, view: &View, texts: &Folded, words: &[Txt]) -> Result<bool, NoMemory>
    requires { texts.now ≡ folded_of view.now }
    ensures { IfOk result (λ has. has ≡ list_all (has_word_in view.now) words.now) }
{
    for word in words {
        if !has_word(alloc, view, texts, word)? {
            return Ok(false);
        }
    }
    Ok(true)
}

// Whether the page has all tags that are asked for, or none of them where that is asked.
fn has_tags(asked: &Asked<'_>, view: &View, texts: &Folded) -> bool
    requires asked { IsAsked asked.now.query.now asked.now }
    requires texts { texts.now ≡ folded_of view.now }
    ensures { result ≡ spec.are_tags_in asked.now.query.now.tags asked.now.query.now.not_tags
        view.now.tags }
{
    if asked.tags.is_empty() {
        return true;
    }
    if view.tags.as_str().is_empty() {
        return asked.query.not_tags;
    }
    has_tags_in(&asked.tags, asked.query.not_tags, texts.tags.as_str())
}

// Whether what the query asks of folded texts holds of a view, which passes what is asked besides.
fn texts_hold(
    alloc: Global,
    asked: &Asked<'_>,
    view: &View,
    texts: &Folded,
) -> Result<bool, NoMemory>
    requires asked { IsAsked asked.now.query.now asked.now }
    requires texts { texts.now ≡ folded_of view.now }
    requires passes { spec.holds_unfolded asked.now.query.now view.now ≡ true }
    ensures { IfOk result (λ taken. taken ≡ spec.decides asked.now.query.now view.now) }
{
    if !has_tags(asked, view, texts) {
        return Ok(false);
    }
    has_words(alloc, view, texts, &asked.words)
}

/// The folded texts of a view, which is one of those that are known.
pub fn texts_of<'a>(known: &'a Known, view: &View) -> &'a Folded
    requires followed { AreFollowed known.now }
    requires view { view_of view.now.id known.now.views.items ≡ Some view.now }
    ensures { result.now ≡ folded_of view.now }
{
    known.texts.of(view.id).unwrap()
}

/// Whether the query takes the view, which is one of those that are known.
pub fn decides(
    alloc: Global,
    known: &Known,
    asked: &Asked<'_>,
    view: &View,
) -> Result<bool, NoMemory>
    requires followed { AreFollowed known.now }
    requires asked { IsAsked asked.now.query.now asked.now }
    requires view { view_of view.now.id known.now.views.items ≡ Some view.now }
    ensures { IfOk result (λ taken. taken ≡ spec.decides asked.now.query.now view.now) }
{
    if !holds_unfolded(asked.query, view) {
        return Ok(false);
    }
    if asked.asks_for_no_texts() {
        return Ok(true);
    }
    texts_hold(alloc, asked, view, texts_of(known, view))
}
