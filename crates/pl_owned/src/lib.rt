//! Parts of the check of a file in which slots may hold anything: that the links of each owner list
//! exactly the slots that name it, that slots stand in no chain, that the live slots are those that
//! were met, and that redirects stand first.
#![tactic(auto)]

mod alone;
mod in_any_order;
mod in_order;
mod live;
mod owned;
mod redirects;
mod slots;

pub use alone::are_alone;
pub use in_any_order::listed_in_any_order;
pub use in_order::are_listed;
pub use live::are_all_live;
pub use owned::Member;
pub use redirects::have_redirects_first;
