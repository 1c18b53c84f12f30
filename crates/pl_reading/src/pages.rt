// Pages with their texts, as a file has them.
ghost use Rattle.std.specs.Prelude.{◌≡◌, ℕ, List, IfOk, IsErrOf};
ghost use Rattle.std.specs.List.{All, AllZip};
ghost use Rattle.pl_base.specs.Good.{IsTitle};
ghost use Rattle.pl_reading.specs.Read as spec;
ghost use Rattle.pl_reading.specs.Texts.{IsHeld};
ghost use Rattle.pl_stored.specs.declared.stored.StoredPage.{StoredPage as Stored};
ghost use Rattle.pl_stored.specs.Fits.{IsUrl};

use pl_base::{CheckError, LONGEST_TITLE, Steps, Txt};
use pl_link::Canon;
use pl_record::{Place, TextAt};
use pl_slot::Arena;
use pl_stored::StoredPage;
use pl_text::bytes;
use std::alloc::Global;
use std::sync::ledger::Ledger;

/// The pages with their texts. `NotAStore` comes exactly where a text is no URL of the store, or no
/// title.
pub fn stored_pages<L: Ledger>(
    alloc: Global,
    arena: &Arena,
    places: &[Place],
    steps: &mut Steps<L>,
) -> Result<Vec<StoredPage>, CheckError>
    requires urls { All (λ p. IsHeld arena.now p.url) places.now }
    requires titles { All (λ p. IsHeld arena.now p.title) places.now }
    ensures read { IfOk result (λ pages.
        AllZip (spec.IsPageRead arena.now) places.now pages.items) }
    ensures none { IsErrOf result CheckError.NotAStore → (pages : List Stored)
        → AllZip (spec.IsPageRead arena.now) places.now pages → ⊥ }
{
    let mut pages = Vec::with_capacity(alloc, places.len())?;
    for place in places {
        pages.push(stored_page(alloc, arena, place, steps)?)?;
    }
    Ok(pages)
}

fn stored_page<L: Ledger>(
    alloc: Global,
    arena: &Arena,
    place: &Place,
    steps: &mut Steps<L>,
) -> Result<StoredPage, CheckError>
    requires url { IsHeld arena.now place.now.url }
    requires title { IsHeld arena.now place.now.title }
    ensures read { IfOk result (spec.IsPageRead arena.now place.now) }
    ensures none { IsErrOf result CheckError.NotAStore → (page : Stored)
        → spec.IsPageRead arena.now place.now page → ⊥ }
{
    Ok(StoredPage {
        id: place.id,
        typed: place.mark.typed,
        frecency: place.mark.frecency,
        url: read_url(alloc, arena, place.url, steps)?,
        title: read_title(alloc, arena, place.title, steps)?,
    })
}

// The text as a URL of the store.
fn read_url<L: Ledger>(
    alloc: Global,
    arena: &Arena,
    at: TextAt,
    steps: &mut Steps<L>,
) -> Result<Canon, CheckError>
    requires { IsHeld arena.now at }
    ensures text { IfOk result (spec.IsText arena.now at) }
    ensures url { IfOk result IsUrl }
    ensures none { IsErrOf result CheckError.NotAStore → (url : List ℕ)
        → spec.IsText arena.now at url → IsUrl url → ⊥ }
{
    let bytes = bytes(alloc, arena, at.slot, at.length, steps)?;
    let Ok(text) = str::from_utf8(&bytes) else {
        return Err(CheckError::NotAStore);
    };
    let url = Canon::read(alloc, text)?;
    if url.text() != text {
        return Err(CheckError::NotAStore);
    }
    Ok(url)
}

/// The text as a title. `NotAStore` comes exactly where it is too long, or no UTF-8.
pub fn read_title<L: Ledger>(
    alloc: Global,
    arena: &Arena,
    at: TextAt,
    steps: &mut Steps<L>,
) -> Result<Txt, CheckError>
    requires { IsHeld arena.now at }
    ensures text { IfOk result (spec.IsText arena.now at) }
    ensures title { IfOk result IsTitle }
    ensures none { IsErrOf result CheckError.NotAStore → (title : List ℕ)
        → spec.IsText arena.now at title → IsTitle title → ⊥ }
{
    if at.length as usize > LONGEST_TITLE {
        return Err(CheckError::NotAStore);
    }
    let bytes = bytes(alloc, arena, at.slot, at.length, steps)?;
    match String::from_utf8(bytes) {
        Ok(text) => Ok(Txt::from(text)),
        Err(_) => Err(CheckError::NotAStore),
    }
}
