// How well words stand in the folded texts of a page.
ghost use Rattle.std.specs.Prelude.{◌≡◌, ◌&&◌, ◌||◌, List, Some};
ghost use Rattle.pl_base.specs.declared.view.View.{View};
ghost use Rattle.pl_follow.specs.declared.texts.Folded.{Folded};
ghost use Rattle.pl_follow.specs.Texts.{KeepsTexts, texts_of};
ghost use Rattle.pl_words.specs.Pieces.{found};
ghost use Rattle.pl_bar.specs.Sketches.{TellsTexts};
ghost use Rattle.pl_bar.specs.Standings as spec;
ghost use Rattle.pl_bar.specs.Standings.{all_in, standing_by, word_in};

use crate::asked::Asked;
use pl_base::{PageId, Txt};
use pl_follow::{Folded, FoldedTexts};
use pl_sketch::Sketch;
use pl_words::{BarText, Marks, Standing, standing};

// How well the word stands in the title or the tags, wherever it stands better.
fn in_titles(texts: &Folded, word: &Txt) -> Standing
    ensures { result ≡ standing_by (λ boundary. spec.in_titles texts.now boundary word.now) }
{
    let in_title = standing(&texts.title, word);
    if in_title == Standing::Boundary {
        return in_title;
    }
    in_title.max(standing(&texts.tags, word))
}

// The same of the title, the tags and the address.
fn in_any(texts: &Folded, word: &Txt) -> Standing
    ensures { result ≡ standing_by (λ boundary.
        spec.in_titles texts.now boundary word.now || found boundary word.now texts.now.address) }
{
    let in_titles = in_titles(texts, word);
    if in_titles == Standing::Boundary {
        return in_titles;
    }
    in_titles.max(standing(&texts.address, word))
}

// How well it stands both in the title or the tags, and in the address.
fn in_both(texts: &Folded, word: &Txt) -> Standing
    ensures { result ≡ standing_by (λ boundary.
        spec.in_titles texts.now boundary word.now && found boundary word.now texts.now.address) }
{
    let in_titles = in_titles(texts, word);
    if in_titles == Standing::Nowhere {
        return in_titles;
    }
    in_titles.min(standing(&texts.address, word))
}

// How well it stands where the marks ask for it.
fn one_stands(texts: &Folded, marks: Marks, word: &Txt) -> Standing
    ensures { result ≡ standing_by (λ boundary. word_in texts.now marks boundary word.now) }
{
    match (marks.title, marks.address) {
        (true, true) => in_both(texts, word),
        (true, false) => in_titles(texts, word),
        (false, true) => standing(&texts.address, word),
        (false, false) => in_any(texts, word),
    }
}

// How well the worst of the words does.
fn all_stand(texts: &Folded, asked: &BarText) -> Standing
    ensures { result ≡ standing_by (all_in texts.now asked.now.marks asked.now.words) }
{
    let mut worst = Standing::Boundary;
    for word in asked.words.as_slice() {
        worst = worst.min(one_stands(texts, asked.marks, word));
        if worst == Standing::Nowhere {
            return worst;
        }
    }
    worst
}

/// How well the words stand in the texts of the page, the worst of them. Where no word is asked, or
/// the sketch of the texts lacks a place of a word's, no text is looked up.
pub fn words_stand(texts: &FoldedTexts, page: PageId, sketch: Sketch, asked: &Asked) -> Standing
    requires sketch { TellsTexts texts.now page sketch }
    ensures { (views : List View) (folded : Folded) → KeepsTexts texts.now views
        → texts_of page views ≡ Some folded
        → result ≡ standing_by (all_in folded asked.now.text.marks asked.now.text.words) }
{
    if !sketch.covers(asked.sketch) {
        return Standing::Nowhere;
    }
    if asked.text.words.as_slice().is_empty() {
        return Standing::Boundary;
    }
    match texts.of(page) {
        Some(texts) => all_stand(texts, &asked.text),
        None => Standing::Nowhere,
    }
}
