// The rows of pages, and the fields of them that are added up and set.
ghost use Rattle.std.specs.Prelude.{◌≡◌};
ghost use Rattle.pl_slot.specs.declared.kind.SlotKind.TheVariants as kinds;
ghost use Rattle.pl_slot.specs.Arena.{IsLiveRow};
ghost use Rattle.pl_slot.specs.Slot.{IsSlotRow, slot_kind};

use pl_base::{PageId, Slot};
use pl_slot::SlotRow;

/// The row of a page with these numbers in its fields.
pub fn place(number: u32, typed: bool) -> SlotRow
    ensures live { IsLiveRow result }
    ensures kind { slot_kind result ≡ kinds.Place }
{
    let slot = Slot(number);
    SlotRow::Place {
        typed,
        hidden: false,
        live_previous: slot,
        live_next: slot,
        id: PageId(number),
        origin: slot,
        origin_previous: slot,
        origin_next: slot,
        first_visit: Slot(number / 2),
        last_visit: slot,
        first_reference: slot,
        last_reference: slot,
        url_text: slot,
        url_length: 60,
        title_text: slot,
        title_length: number % 100,
        frecency: i64::from(number),
        count: number % 1000,
    }
}

/// The sum of some fields of the row of a page.
pub fn sum_of(row: &SlotRow) -> u64 {
    let SlotRow::Place {
        first_visit,
        frecency,
        count,
        ..
    } = row
    else {
        return 0;
    };
    u64::from(first_visit.0)
        .wrapping_add(frecency.cast_unsigned())
        .wrapping_add(u64::from(*count))
}

/// The row of a page with another first visit, further on by so many slots.
pub fn with_further_visit(mut row: SlotRow, by: u32) -> SlotRow
    requires fits { IsSlotRow row }
    requires kind { slot_kind row ≡ kinds.Place }
    ensures live { IsLiveRow result }
    ensures kind { slot_kind result ≡ kinds.Place }
{
    match &mut row {
        SlotRow::Place { first_visit, .. } => first_visit.0 = first_visit.0.wrapping_add(by),
        _ => unreachable!(),
    }
    row
}
