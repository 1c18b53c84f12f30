// The prefixes and hosts of the origins of rows, which are parsed once for each.
ghost use Rattle.std.specs.Prelude.{◌≡◌, Some, true, IfOk, OnOk};
ghost use Rattle.pl_base.specs.Address.{origin_of_url};
ghost use Rattle.pl_base.specs.Rows.{Kept, has_page, url_of};
ghost use Rattle.pl_changes.specs.Origins.{AreTold};

use pl_base::{NoMemory, PageId, Rows, Slot, Steps, Txt};
use pl_link::Parts;
use pl_marks::parts_of;
use std::alloc::Global;
use std::collections::HashMap;
use std::sync::ledger::Ledger;

// The prefix and the host of a URL.
#[derive(Drop)]
pub struct Origin {
    pub prefix: Txt,
    pub host: Txt,
}

// The parts of the first URL of each origin that was asked for.
#[derive(Drop)]
pub struct Origins {
    parts: HashMap<Slot, Parts>,
}

fn copied(alloc: Global, parts: &Parts) -> Result<Origin, NoMemory>
    ensures prefix { IfOk result (λ origin. origin.prefix ≡ parts.now.prefix) }
    ensures host { IfOk result (λ origin. origin.host ≡ parts.now.host) }
{
    Ok(Origin {
        prefix: Txt::copied(alloc, parts.prefix.as_str())?,
        host: Txt::copied(alloc, parts.host.as_str())?,
    })
}

impl Origins {
    // Those of none.
    pub fn new(alloc: Global) -> Origins
        ensures { (kept : Kept) → AreTold kept result }
    {
        Origins {
            parts: HashMap::new(alloc),
        }
    }

    // The origin of a page with this URL.
    pub fn origin<R: Rows, L: Ledger>(
        &mut self,
        alloc: Global,
        rows: &R,
        page: PageId,
        url: &str,
        steps: &mut Steps<L>,
    ) -> Result<Origin, NoMemory>
        requires page { has_page (R.kept rows.now) page ≡ true }
        requires url { Some url.now ≡ url_of (R.kept rows.now) page }
        requires told { AreTold (R.kept rows.now) self.old }
        ensures origin { IfOk result (λ origin.
            origin_of_url url.now ≡ Some (origin.prefix, origin.host)) }
        ensures told { OnOk result (AreTold (R.kept rows.now) self.new) }
    {
        let slot = rows.origin_of(page, steps);
        if let Some(parts) = self.parts.get(&slot) {
            return copied(alloc, parts);
        }
        let parts = parts_of(alloc, url)?;
        let origin = copied(alloc, &parts)?;
        self.parts.insert(slot, parts)?;
        Ok(origin)
    }
}
