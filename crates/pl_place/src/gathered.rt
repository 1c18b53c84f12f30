use pl_base::NoMemory;
use std::alloc::Global;
use std::marker::Model;

/// A list that grows at its end. Contracts see it as such.
#[derive(Drop)]
pub(crate) struct Gathered<T> {
    list: Vec<T>,
}

impl<T> Model for Gathered<T> {
    ghost use Rattle.std.specs.Prelude.{List};

    ghost Value = { List T };

    ghost view = { λ g. g.list.items };
}

impl<T: Drop> Gathered<T> {
    ghost use Rattle.std.specs.Prelude.{◌≡◌, ◌∷◌, ◌++◌, [], OnOk};

    pub(crate) fn new(alloc: Global) -> Self
        ensures { result ≡ [] }
    {
        Gathered {
            list: Vec::new(alloc),
        }
    }

    pub(crate) fn push(&mut self, item: T) -> Result<(), NoMemory>
        ensures { OnOk result (self.new ≡ self.old ++ item ∷ []) }
    {
        self.list.push(item)?;
        Ok(())
    }

    pub(crate) fn into_vec(self) -> Vec<T>
        ensures { result.items ≡ self }
    {
        self.list
    }
}
