use std::marker::Model;

/// A list, which contracts see as such.
#[derive(Debug, Drop)]
pub struct Seq<T> {
    list: Vec<T>,
}

impl<T> Model for Seq<T> {
    ghost use Rattle.std.specs.Prelude.{List};

    ghost Value = { List T };

    ghost view = { λ s. s.list.items };
}

impl<T> Seq<T> {
    ghost use Rattle.std.specs.Prelude.{◌≡◌};

    pub fn as_slice(&self) -> &[T]
        ensures { result.now ≡ self.now }
    {
        self.list.as_slice()
    }
}

impl<T> From<Vec<T>> for Seq<T> {
    ghost use Rattle.std.specs.Prelude.{◌≡◌};

    ghost from_gives = { λ list s. s ≡ list.items };

    fn from(list: Vec<T>) -> Self {
        Seq { list }
    }
}

impl<T: PartialEq> PartialEq for Seq<T> {
    ghost use Rattle.std.specs.Cmp.Lexicographic.{pointwise, lists_per};

    ghost eq = { λ a b. pointwise T.eq a b };

    ghost laws = { lists_per T.laws };

    fn eq(&self, other: &Seq<T>) -> bool {
        self.list == other.list
    }
}

impl<T: Eq> Eq for Seq<T> {
    ghost use Rattle.std.specs.Cmp.Lexicographic.{lists_equiv};

    ghost laws = { lists_equiv T.Eq.laws };
}
