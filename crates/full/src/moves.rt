//! What a call moves.

ghost use Rattle.std.specs.Prelude.{◌≤◌};
ghost use Rattle.registers.specs.declared.store.TheConstants.{MOST_ROWS};

use crate::register_move::Move;

/// The moves of a call, in the order in which the rules give them. Several may be of one register: each
/// then starts where the one before it ends.
#[derive(Clone, Copy, PartialEq, Eq, Debug)]
pub struct Moves<const N: usize> {
    pub list: [Move; N],
    ghost few: { N ≤ MOST_ROWS },
}
