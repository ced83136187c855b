//! Level One: the engine under full collateral, over any store.
#![tactic(auto)]

pub mod announcement;
pub mod asset;
pub mod bargain;
pub mod book;
pub mod call;
pub mod calls;
pub mod cover;
pub mod deal;
pub mod engine;
pub mod free;
pub mod guard;
pub mod keys;
pub mod mode;
pub mod moves;
pub mod open_register;
pub mod opening;
pub mod order;
pub mod order_number;
pub mod pair;
pub mod place_from;
pub mod placed_order;
pub mod putting;
pub mod ranges;
pub mod register_move;
pub mod securities;
pub mod security;
pub mod security_number;
pub mod settings;
pub mod side;
pub mod terms;
pub mod trade_registers;
pub mod trading;
