//! Obligations.

use crate::stage::Stage;

/// What a trade in partial mode leaves owed, under the trade's number: the seller's account owes the
/// quantity of the security, the buyer's the money in kopecks, as far as the stage says.
#[derive(Clone, Copy, PartialEq, Eq, Debug)]
pub struct Obligation {
    pub number: u32,
    pub seller: u32,
    pub buyer: u32,
    pub security: u16,
    pub quantity: u32,
    pub money: u64,
    pub stage: Stage,
}
