use pl_base::{Rows, View};
use pl_calendar::Calendar;
use pl_follow::{FoldedTexts, OrderIndex, UrlIndex};
use pl_totals::Totals;

/// An engine taken apart: its rows, how many slots of 128 bytes their store may take, the views of
/// its pages by ascending id, and what follows these.
#[derive(Drop)]
pub struct Parts<R: Rows> {
    pub rows: R,
    pub limit: u32,
    pub views: Vec<View>,
    pub urls: UrlIndex,
    pub order: OrderIndex,
    pub texts: FoldedTexts,
    pub calendar: Calendar,
    pub totals: Totals,
}
