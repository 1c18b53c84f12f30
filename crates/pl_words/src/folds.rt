ghost use Rattle.std.specs.Prelude.{◌≡◌, IfOk};
ghost use Rattle.pl_base.specs.Fold.{folded};

use caseless::default_case_fold_str;
use pl_base::{NoMemory, Txt};
use std::alloc::Global;

/// The text with its case folded, by the default case folding of the Unicode Standard. Two texts
/// are the same without regard to case where their folds are. The fold takes no more room than its
/// bytes need.
pub fn fold(alloc: Global, text: &str) -> Result<Txt, NoMemory>
    ensures { IfOk result (λ folds. folds ≡ folded text.now) }
{
    if text.is_ascii() {
        let mut lower = String::from_str(alloc, text)?;
        lower.make_ascii_lowercase();
        return Ok(Txt::from(lower));
    }
    let folds = default_case_fold_str(alloc, text)?;
    Txt::copied(alloc, folds.as_str())
}
