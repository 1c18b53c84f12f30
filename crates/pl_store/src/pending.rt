ghost use Rattle.std.specs.Prelude.{◌≤◌, length};
ghost use Rattle.std.proofs.Props.{props};
ghost use Rattle.pl_base.specs.Touched.{IsWithin};

use pl_base::Touched;

/// Pages to be written over a store's file, at least one.
#[derive(Drop)]
pub struct Pending {
    pub touched: Touched,
    ghost within: { IsWithin touched } by { Prim.hlevel props },
    ghost some: { 1 ≤ touched.before },
    ghost some_pages: { 1 ≤ length touched.pages },
}

impl Pending {
    ghost use Rattle.std.specs.Prelude.{◌≡◌, ℕ, List, None};
    ghost use Rattle.pl_base.specs.Touched.{bytes_before, changed};
    ghost use Rattle.pl_store.specs.Session.{LeadsTo, pages_of_change};

    /// None where no page was touched: then the file has all bytes that it is to have.
    pub fn of(touched: Touched) -> Option<Pending>
        requires within { IsWithin touched }
        requires some { 1 ≤ touched.before }
        ensures leads { (before : List ℕ) → length before ≡ bytes_before touched.before
            → LeadsTo before result (changed touched before) }
        ensures none { length touched.pages ≡ 0 → result ≡ None }
        ensures pages { pages_of_change result ≡ length touched.pages }
    {
        if touched.count() == 0 {
            return None;
        }
        Some(Pending { touched })
    }
}
