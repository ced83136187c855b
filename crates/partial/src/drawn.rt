//! What a trade in partial mode moves.

use full::register_move::Move;

/// What a trade moves of the limits of its two participants. If both are one participant's, the seller's
/// move starts where the buyer's ends.
#[derive(Clone, Copy, PartialEq, Eq, Debug)]
pub struct Drawn {
    pub buyer: Move,
    pub seller: Move,
}
