// The slots of visits, taken and linked, unlinked and given back.
mod freeing;
mod taking;

pub use freeing::{drop_targets, free_visit};
pub use taking::take_visit;
