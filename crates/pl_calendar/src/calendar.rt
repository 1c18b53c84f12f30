// The due days of views, kept as the views change.
ghost use Rattle.std.specs.Prelude.{◌≡◌, [], IfOk, List};
ghost use Rattle.std.specs.Option.{option_and_then, option_copied};
ghost use Rattle.pl_base.specs.declared.view.View.{View};
ghost use Rattle.pl_calendar.specs.Days.{KeepsDays, due_pages, entry_of};

use pl_base::{Day, NoMemory, PageId, View};
use pl_follow::{Follow, replace_rank};
use std::alloc::Global;
use std::collections::BTreeSet;

/// The views of a store that have a due day, by that day.
///
/// Days are counted from 1970-01-01, in UTC. A change takes time in the logarithm of the number of
/// views, and memory where a due day comes; one under which a view keeps its id and its due day
/// compares these alone.
#[derive(Debug, Drop)]
pub struct Calendar {
    // The due day of each view that has one, and its id.
    entries: BTreeSet<(Day, PageId)>,
}

impl Calendar {
    /// That of no views, on the store's day. The due days of its views lie behind that day, but
    /// nothing rests on it: views that are due on any day may come.
    pub fn new(alloc: Global, _day: Day) -> Calendar
        ensures { KeepsDays result [] }
    {
        Calendar {
            entries: BTreeSet::new(alloc),
        }
    }

    /// The pages whose due day is this one or an earlier one, by ascending id.
    ///
    /// Only these are walked, and then sorted. They alone take memory: where none is due, none is
    /// taken.
    pub fn due_through(&self, alloc: Global, day: Day) -> Result<Vec<PageId>, NoMemory>
        ensures { IfOk result (λ pages. (views : List View) → KeepsDays self.now views
            → pages.items ≡ due_pages day views) }
    {
        let due = self.entries.iter().take_while(|entry| entry.0 <= day);
        let mut pages: Vec<PageId> = due.map(|entry| entry.1).collect(alloc)?;
        pages.sort_unstable();
        Ok(pages)
    }
}

impl Follow for Calendar {
    ghost stands = { KeepsDays };

    fn change(
        &mut self,
        _alloc: Global,
        old: Option<&View>,
        new: Option<&View>,
    ) -> Result<(), NoMemory> {
        replace_rank(&mut self.entries, entry(old), entry(new))
    }
}

// The due day of a view, if it has one, and its id.
fn entry(view: Option<&View>) -> Option<(Day, PageId)>
    ensures { result ≡ option_and_then entry_of (option_copied view.entry) }
{
    let view = view?;
    Some((view.due?, view.id))
}
