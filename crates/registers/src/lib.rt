//! Limit registers: amounts, rows, the store of rows as an interface, and two stores.
#![tactic(auto)]

pub mod amounts;
pub mod constants;
pub mod fault;
pub mod figures;
pub mod image;
mod image_keys;
pub mod in_range;
pub mod key;
pub mod kind;
pub mod ranges;
pub mod row;
pub mod store;
pub mod table;
pub mod too_short;
mod unrounded;
