//! The calls of the sample dealings, and the text that programs print of a call and of its outcome.
#![tactic(auto)]

pub mod calls;
pub mod printed_call;
mod printed_collateral;
pub mod printed_outcome;
pub mod printed_partial_call;
pub mod printed_pool_call;
