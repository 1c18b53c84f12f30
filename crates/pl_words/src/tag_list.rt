ghost use Rattle.std.specs.Prelude.{◌≡◌, true, IfOk};
ghost use Rattle.pl_words.specs.TagLists.{each_once, firsts, is_same_tag};

use crate::{TagName, fold};
use pl_base::{NoMemory, Seq};
use std::alloc::Global;
use std::collections::BTreeSet;

/// The tags in their order, each once: where it stands first. Tags are the same where their folds
/// are.
pub fn first_tags(alloc: Global, told: Vec<TagName>) -> Result<Seq<TagName>, NoMemory>
    ensures value { IfOk result (λ tags. tags ≡ firsts is_same_tag told.items) }
    ensures form { IfOk result (λ tags. each_once is_same_tag tags ≡ true) }
{
    let mut tags = Vec::new(alloc);
    let mut seen = BTreeSet::new(alloc);
    for tag in told {
        if seen.insert(fold(alloc, tag.text())?)? {
            tags.push(tag)?;
        }
    }
    Ok(Seq::from(tags))
}
