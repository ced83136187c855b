//! Level Three: the clearing pool, on the engine of Level Two.
#![tactic(auto)]

pub mod call;
pub mod calls;
pub mod debt;
pub mod earmark;
pub mod engine;
pub mod leg;
pub mod need;
pub mod passing;
pub mod placed_obligation;
pub mod settle;
pub mod shown;
pub mod sweep;
pub mod ticket;
