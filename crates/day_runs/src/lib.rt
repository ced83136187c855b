//! Whole days: every record of a file carried out on one engine.
#![tactic(auto)]

pub mod runs;
