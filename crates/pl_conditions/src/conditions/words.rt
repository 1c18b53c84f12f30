// Whether the words that are looked for stand in the texts of a page.
ghost use Rattle.std.specs.Prelude.{◌≡◌, Some, true, IfOk};
ghost use Rattle.std.specs.List.{list_all};
ghost use Rattle.pl_base.specs.Good.{IsGood};
ghost use Rattle.pl_base.specs.Rows.{KeptPage, has_page, page_at, store_of, url_of};
ghost use Rattle.pl_conditions.specs.Asked.{IsAsked};
ghost use Rattle.pl_conditions.specs.AskedParts as parts;
ghost use Rattle.pl_conditions.specs.AskedParts.{AreTextsOf};
ghost use Rattle.pl_conditions.specs.Conditions as spec;
ghost use Rattle.pl_conditions.specs.Conditions.{words_asked};

use crate::asked::Asked;
use pl_base::{NoMemory, PageId, Rows, Steps, Txt};
use pl_link::Canon;
use pl_marks::tag_text;
use pl_words::{fold, matches, searched};
use std::alloc::Global;
use std::sync::ledger::Ledger;

// The texts of a page in which words are looked for, folded.
#[derive(Drop)]
struct PageTexts {
    title: Txt,
    address: Txt,
    tags: Txt,
}

// The texts of the page with this URL.
fn page_texts<R: Rows, L: Ledger>(
    alloc: Global,
    rows: &R,
    page: PageId,
    url: &Canon,
    steps: &mut Steps<L>,
) -> Result<PageTexts, NoMemory>
    requires page { has_page (R.kept rows.now) page ≡ true }
    requires good { IsGood (store_of (R.kept rows.now)) }
    requires url { Some url.now ≡ url_of (R.kept rows.now) page }
    ensures { IfOk result (λ texts. (p : KeptPage) → page_at (R.kept rows.now) page ≡ Some p
        → AreTextsOf (store_of (R.kept rows.now)) p.page texts) }
{
    let address = searched(alloc, url.text(), url.prefix())?;
    let title = rows.title(page, steps)?;
    let title = fold(alloc, title.as_str())?;
    let tags = tag_text(alloc, rows, page, steps)?;
    let tags = fold(alloc, tags.as_str())?;
    Ok(PageTexts {
        title,
        address,
        tags,
    })
}

// Whether the word stands in one of the texts.
fn is_in_texts(texts: &PageTexts, word: &Txt) -> bool
    ensures { result ≡ parts.is_in_texts texts.now word.now }
{
    matches(&texts.title, word, false)
        || matches(&texts.address, word, false)
        || matches(&texts.tags, word, false)
}

// Whether each word stands in one of the texts.
fn are_in_texts(texts: &PageTexts, words: &[Txt]) -> bool
    ensures { result ≡ list_all (parts.is_in_texts texts.now) words.now }
{
    words.iter().all(|word| is_in_texts(texts, word))
}

/// Whether each word that is looked for stands in the title, the address or the tags of the page
/// with this URL.
pub fn has_words<R: Rows, L: Ledger>(
    alloc: Global,
    rows: &R,
    asked: &Asked<'_>,
    page: PageId,
    url: &Canon,
    steps: &mut Steps<L>,
) -> Result<bool, NoMemory>
    requires page { has_page (R.kept rows.now) page ≡ true }
    requires good { IsGood (store_of (R.kept rows.now)) }
    requires asked { IsAsked (store_of (R.kept rows.now)) asked.now.query.now asked.now }
    requires url { Some url.now ≡ url_of (R.kept rows.now) page }
    ensures { IfOk result (λ hold. (p : KeptPage) → page_at (R.kept rows.now) page ≡ Some p
        → hold ≡ list_all (spec.has_word (store_of (R.kept rows.now)) p.page)
        (words_asked asked.now.query.now.terms)) }
{
    if asked.words.is_empty() {
        return Ok(true);
    }
    let texts = page_texts(alloc, rows, page, url, steps)?;
    Ok(are_in_texts(&texts, &asked.words))
}
