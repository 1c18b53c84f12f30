use pl_reading::LiveSlots;
use pl_record::{Item, Place, Visit};
use pl_stored::StoredRows;
use std::marker::Model;

/// The rows of a file: the slots that its header lists, what they hold, and the rows with their
/// texts and ids.
#[derive(Debug, Drop)]
pub struct FileRows {
    pub live: LiveSlots,
    pub totals: Vec<u64>,
    pub places: Vec<Place>,
    pub visits: Vec<Visit>,
    pub items: Vec<Item>,
    pub stored: StoredRows,
}

impl Model for FileRows {
    ghost use Rattle.pl_load.specs.Reads.{Reads};

    ghost Value = { Reads };

    ghost view = { λ r. record {
      origins = r.live.origins.items;
      totals = r.totals.items;
      place_slots = r.live.places.items;
      places = r.places.items;
      visit_slots = r.live.visits.items;
      visits = r.visits.items;
      item_slots = r.live.items.items;
      items = r.items.items;
      stored = r.stored;
    } };
}
