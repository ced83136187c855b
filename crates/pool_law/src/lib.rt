//! The law over whole runs of Level Three: a list of calls on one engine.
#![tactic(auto)]

pub mod runs;
