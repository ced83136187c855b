//! Day files: the header, the records in their order, each with its place, and the faults.
#![tactic(auto)]

pub mod day_file;
pub mod fault;
pub mod kind;
pub mod misread;
pub mod placed_record;
pub mod reader;
pub mod record;
pub mod shape;
pub mod whole_file;
