// The tags that a query asks for, compared by their folds.
ghost use Rattle.std.specs.Prelude.{◌≡◌, IfOk, bytes_eq};
ghost use Rattle.std.specs.List.{list_all, list_any};
ghost use Rattle.pl_query.specs.DecidedParts as parts;
ghost use Rattle.pl_query.specs.Decides as spec;
ghost use Rattle.pl_query.specs.Decides.{comma_split};

use pl_base::{NoMemory, Txt, View};
use pl_conditions::tags_asked;
use pl_place::Query;
use pl_words::fold;
use std::alloc::Global;

// Whether the fold of a tag is a part of the text, which is cut at its commas.
fn is_part(fold: &Txt, text: &str) -> bool
    ensures { result ≡ list_any (bytes_eq fold.now) (comma_split text.now) }
{
    text.split(',').any(|part| fold.as_str() == part)
}

// Whether the fold of a tag is one of those that a text joins by commas.
fn is_fold_in(fold: &Txt, text: &str) -> bool
    ensures { result ≡ parts.is_fold_in text.now fold.now }
{
    !text.is_empty() && is_part(fold, text)
}

// Whether all folds of tags are in the text.
fn all_are_in(folds: &[Txt], text: &str) -> bool
    ensures { result ≡ list_all (parts.is_fold_in text.now) folds.now }
{
    folds.iter().all(|fold| is_fold_in(fold, text))
}

// Whether a fold of a tag is in the text.
fn one_is_in(folds: &[Txt], text: &str) -> bool
    ensures { result ≡ list_any (parts.is_fold_in text.now) folds.now }
{
    folds.iter().any(|fold| is_fold_in(fold, text))
}

/// Whether all these folds of tags are among the folds that a text joins by commas, or none of
/// them is where that is asked. The text is the fold of a view's tags.
pub fn has_tags_in(folds: &[Txt], not_tags: bool, text: &str) -> bool
    ensures { result ≡ parts.are_folds_in folds.now not_tags text.now }
{
    if not_tags {
        !one_is_in(folds, text)
    } else {
        all_are_in(folds, text)
    }
}

/// Whether the view has all tags that the query asks for, or none of them where that is asked.
pub fn has_tags_asked(alloc: Global, query: &Query, view: &View) -> Result<bool, NoMemory>
    ensures { IfOk result (λ has. has
        ≡ spec.are_tags_in query.now.tags query.now.not_tags view.now.tags) }
{
    let folds = tags_asked(alloc, query)?;
    if folds.is_empty() {
        return Ok(true);
    }
    let text = fold(alloc, view.tags.as_str())?;
    Ok(has_tags_in(&folds, query.not_tags, text.as_str()))
}
