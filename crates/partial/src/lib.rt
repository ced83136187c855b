//! Level Two: participants' limits and partial collateral, on the engine of Level One.
#![tactic(auto)]

pub mod call;
pub mod calls;
pub mod drawn;
pub mod engine;
pub mod free;
pub mod limits;
pub mod obligation;
pub mod obligations;
pub mod stage;
pub mod trade_number;
