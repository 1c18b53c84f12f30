//! The days on which the frecencies of views are to be computed again, as the views change.
#![tactic(auto)]

mod calendar;

pub use calendar::Calendar;
