// What keys say that gather their values: each thing once, where it was said first.
ghost use Rattle.std.specs.Prelude.{◌≡◌, true, IfOk};
ghost use Rattle.std.specs.List.{filter, list_any};
ghost use Rattle.pl_place.specs.PlaceText as spec;
ghost use Rattle.pl_words.specs.TagLists.{each_once, firsts};
ghost use Rattle.pl_place.specs.PlaceText.{is_among};
ghost use Rattle.pl_place.specs.QueryForm.{ascend, is_same_item};

use pl_base::{ItemId, NoMemory, Seq, Transition};
use std::alloc::Global;

/// All transitions, by their numbers.
const TRANSITIONS: [Transition; 9] = [
    Transition::Link,
    Transition::Typed,
    Transition::Bookmark,
    Transition::Embed,
    Transition::RedirectPermanent,
    Transition::RedirectTemporary,
    Transition::Download,
    Transition::FramedLink,
    Transition::Reload,
];

pub(crate) fn first_items(alloc: Global, told: &[ItemId]) -> Result<Seq<ItemId>, NoMemory>
    ensures value { IfOk result (λ items. items ≡ firsts is_same_item told.now) }
    ensures form { IfOk result (λ items. each_once is_same_item items ≡ true) }
{
    let mut items = Vec::new(alloc);
    for item in told {
        if is_known_item(&items, *item) {
            continue;
        }
        items.push(*item)?;
    }
    Ok(Seq::from(items))
}

fn is_known_item(items: &[ItemId], item: ItemId) -> bool
    ensures { result ≡ list_any (λ known. is_same_item known item) items.now }
{
    items.iter().any(|known| known.0 == item.0)
}

/// The transitions, by their numbers.
pub(crate) fn by_number(alloc: Global, told: &[Transition]) -> Result<Seq<Transition>, NoMemory>
    ensures value { IfOk result (λ transitions. transitions ≡ spec.by_number told.now) }
    ensures form { IfOk result (λ transitions. ascend transitions ≡ true) }
{
    Ok(Seq::from(those_told(alloc, &TRANSITIONS, told)?))
}

fn those_told(
    alloc: Global,
    all: &[Transition],
    told: &[Transition],
) -> Result<Vec<Transition>, NoMemory>
    ensures { IfOk result (λ those. those.items ≡ filter (is_among told.now) all.now) }
{
    Ok(
        all.iter()
            .copied()
            .filter(|t| is_told(told, *t))
            .collect(alloc)?,
    )
}

fn is_told(told: &[Transition], transition: Transition) -> bool
    ensures { result ≡ is_among told.now transition }
{
    told.iter().any(|t| t.number() == transition.number())
}
