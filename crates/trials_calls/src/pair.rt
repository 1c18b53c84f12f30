// Two forms of rows that get the same calls, and what both tell behind each.
use crate::{Chance, draw};
use pl_base::{ItemId, PageId, Rows, Steps, VisitId};
use std::alloc::Global;
use std::sync::ledger::Ledger;
use std::test::Fail;
use trials_forms::{Answer, Call, GoodRows, item_looks, item_text, page_looks, page_texts};

/// Two forms of rows.
#[derive(Drop)]
pub struct Pair<A: Rows, B: Rows> {
    pub one: GoodRows<A>,
    pub other: GoodRows<B>,
}

// The visits that came from one, each with whether it is no redirect: in ascending order, as their
// own order is open, but that redirects stand before all others.
fn targets<R: Rows, L: Ledger>(
    alloc: Global,
    rows: &R,
    source: VisitId,
    steps: &mut Steps<L>,
) -> Result<Vec<(bool, VisitId)>, Fail> {
    let mut targets = Vec::new(alloc);
    let mut next = rows.first_target(source, steps);
    for _ in 0..rows.visits(steps) {
        let Some(visit) = next else {
            break;
        };
        let row = rows.visit_at(visit, steps).ok_or("no target")?;
        targets.push((!row.transition.is_redirect(), visit))?;
        next = rows.next_target(visit, steps);
    }
    if next.is_some() || !targets.is_sorted_by_key(|target| target.0) {
        return Err("the order of targets".into());
    }
    targets.sort_unstable();
    Ok(targets)
}

impl<A: Rows + Drop, B: Rows + Drop> Pair<A, B> {
    fn same_page<L: Ledger>(&self, page: PageId, steps: &mut Steps<L>) -> Result<(), Fail> {
        let (one, other) = (&self.one.rows, &self.other.rows);
        let looks = page_looks(one, page, steps);
        if looks != page_looks(other, page, steps) {
            return Err("a page".into());
        }
        if looks.mark.is_some()
            && page_texts(one, page, steps)? != page_texts(other, page, steps)?
        {
            return Err("the texts or the origin of a page".into());
        }
        Ok(())
    }

    fn same_visit<L: Ledger>(&self, visit: VisitId, steps: &mut Steps<L>) -> Result<(), Fail> {
        let (one, other) = (&self.one.rows, &self.other.rows);
        if one.visit_at(visit, steps) != other.visit_at(visit, steps)
            || one.older(visit, steps) != other.older(visit, steps)
        {
            return Err("a visit".into());
        }
        let left = targets(self.one.alloc, one, visit, steps)?;
        if left != targets(self.one.alloc, other, visit, steps)? {
            return Err("the targets of a visit".into());
        }
        Ok(())
    }

    fn same_item<L: Ledger>(&self, item: ItemId, steps: &mut Steps<L>) -> Result<(), Fail> {
        let (one, other) = (&self.one.rows, &self.other.rows);
        let looks = item_looks(one, item, steps);
        if looks != item_looks(other, item, steps) {
            return Err("an item".into());
        }
        if looks.row.is_some() && item_text(one, item, steps)? != item_text(other, item, steps)? {
            return Err("the title of an item".into());
        }
        Ok(())
    }

    // Both tell the same of the whole store.
    fn same_whole<L: Ledger>(&self, steps: &mut Steps<L>) -> Result<(), Fail> {
        let (one, other) = (&self.one.rows, &self.other.rows);
        if one.day(steps) != other.day(steps)
            || one.ids(steps) != other.ids(steps)
            || one.live(steps) != other.live(steps)
            || one.visits(steps) != other.visits(steps)
            || one.items(steps) != other.items(steps)
            || one.page_after(None, steps) != other.page_after(None, steps)
        {
            return Err("the whole store".into());
        }
        Ok(())
    }

    // Both tell the same of the ids that a call names.
    fn same_named<L: Ledger>(&self, call: Call, steps: &mut Steps<L>) -> Result<(), Fail> {
        match call {
            Call::SetDay(_) | Call::InsertPage(_) => Ok(()),
            Call::RemovePage(page)
            | Call::SetTitle(page, _)
            | Call::SetMark(page, _)
            | Call::SetTotal(page, _) => self.same_page(page, steps),
            Call::InsertVisit(row) => {
                self.same_visit(row.source.unwrap_or(VisitId(0)), steps)?;
                self.same_page(row.page, steps)
            }
            Call::RemoveVisit(visit) => self.same_visit(visit, steps),
            Call::InsertItem(draft) => {
                self.same_item(draft.spot.parent, steps)?;
                self.same_page(draft.page, steps)
            }
            Call::MoveItem(item, spot) => {
                self.same_item(spot.parent, steps)?;
                self.same_item(item, steps)
            }
            Call::SetItem(item, _, _) | Call::SetModified(item, _) | Call::RemoveItem(item) => {
                self.same_item(item, steps)
            }
        }
    }

    // Both tell the same of the id that an answer names.
    fn same_answer<L: Ledger>(&self, answer: Answer, steps: &mut Steps<L>) -> Result<(), Fail> {
        match answer {
            Answer::Passed | Answer::Done => Ok(()),
            Answer::Page(page) => self.same_page(page, steps),
            Answer::Visit(visit) => self.same_visit(visit, steps),
            Answer::Item(item) => self.same_item(item, steps),
        }
    }

    fn same_pages<L: Ledger>(&self, steps: &mut Steps<L>) -> Result<(), Fail> {
        for id in 0..=self.one.rows.ids(steps).page {
            self.same_page(PageId(id), steps)?;
        }
        self.same_page(PageId(u32::MAX), steps)
    }

    fn same_visits<L: Ledger>(&self, steps: &mut Steps<L>) -> Result<(), Fail> {
        for id in 0..=self.one.rows.ids(steps).visit {
            self.same_visit(VisitId(id), steps)?;
        }
        self.same_visit(VisitId(u32::MAX), steps)
    }

    fn same_items<L: Ledger>(&self, steps: &mut Steps<L>) -> Result<(), Fail> {
        for id in 0..=self.one.rows.ids(steps).item {
            self.same_item(ItemId(id), steps)?;
        }
        self.same_item(ItemId(u32::MAX), steps)
    }

    /// Both tell the same of each id that was ever given, of 0, of the next id and of the last.
    pub fn same_all<L: Ledger>(&self, steps: &mut Steps<L>) -> Result<(), Fail> {
        self.same_whole(steps)?;
        self.same_pages(steps)?;
        self.same_visits(steps)?;
        self.same_items(steps)
    }

    /// Both after a call, which answer the same to it, and tell the same of the whole store and of
    /// the ids that it names.
    pub fn apply<L: Ledger>(
        self,
        call: Call,
        steps: &mut Steps<L>,
    ) -> Result<(Self, Answer), Fail> {
        let (one, answer) = self.one.apply(call, steps)?;
        let (other, second) = self.other.apply(call, steps)?;
        if answer != second {
            return Err("an answer".into());
        }
        let pair = Pair { one, other };
        pair.same_whole(steps)?;
        pair.same_named(call, steps)?;
        pair.same_answer(answer, steps)?;
        Ok((pair, answer))
    }

    /// Both after so many calls that are made, of at most eight times as many that are drawn; and
    /// how many were made. Each hundred, all is compared.
    pub fn run<L: Ledger>(
        self,
        chance: &mut Chance,
        calls: u32,
        steps: &mut Steps<L>,
    ) -> Result<(Self, u32), Fail> {
        let mut pair = self;
        let mut made = 0_u32;
        for _ in 0..calls.saturating_mul(8) {
            let call = draw(chance, &pair.other.rows, steps);
            let (next, answer) = pair.apply(call, steps)?;
            pair = next;
            if answer == Answer::Passed {
                continue;
            }
            made = made.saturating_add(1);
            if made % 100 == 0 {
                pair.same_all(steps)?;
            }
            if made >= calls {
                break;
            }
        }
        Ok((pair, made))
    }
}
