//! What the program reads its input from and says its replies to, and fakes of both in memory.
#![tactic(auto)]

mod calls;
mod desk;
mod failed;
mod fails;
mod mem_desk;
mod mem_source;
mod quick_desk;
mod record;
mod replay;
mod source;

pub use calls::Calls;
pub use desk::Desk;
pub use failed::Failed;
pub use mem_desk::{MemDesk, RECORD_ROOM};
pub use mem_source::MemSource;
pub use quick_desk::QuickDesk;
pub use source::Source;
