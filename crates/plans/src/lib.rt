//! What a call does, and what a list of calls does: definitions and their laws, over any state, call,
//! answer and tally. Every level of the engine is an instance.
#![tactic(auto)]

pub mod layer;
pub mod machine;
pub mod refusal;
