//! Day files carried out: a record becomes a call of the engine, and each gives one line of the listing.
#![tactic(auto)]

pub mod calls;
pub mod carrying;
pub mod day;
pub mod line;
pub mod listing;
pub mod listing_stage;
pub mod refusal;
pub mod writing;
