//! A session over a store's file: a command is prepared in memory, and then its change is committed
//! whole or not at all. `Memory` is the same without a file, and `Keeper` is either of them.
#![tactic(auto)]

mod commit;
mod ended;
mod keeper;
mod memory;
mod open;
mod pending;
mod read;
mod reader;
mod session;
mod start;
mod uncounted;
mod write;

pub use ended::Ended;
pub use keeper::{Keeper, Ready};
pub use memory::Memory;
pub use open::{create, open_to_read, reopen};
pub use pl_base::SLOT_LIMIT;
pub use reader::Reader;
pub use session::{Prepared, Session};
