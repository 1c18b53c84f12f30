// The slots of items, taken and linked, moved, unlinked and given back.
mod freeing;
mod moving;
mod taking;

pub use freeing::remove_item;
pub use moving::move_item;
pub use taking::insert_item;
