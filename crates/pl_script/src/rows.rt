// The rows of a reply, a line each behind one that says how many there are.
mod bar;
mod found;
mod list;

pub use bar::bar_text;
pub use found::found_text;
pub use list::list_text;
