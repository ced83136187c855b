//! What a call moves of a register.

ghost use Rattle.std.specs.Prelude.{◌≡◌};
ghost use Rattle.full.specs.OpenRegisters.{no_figures};
ghost use Rattle.full.specs.Trades.{move_to};

use crate::open_register::OpenRegister;
use registers::figures::Figures;

/// A register that a call moves: its place, its figures before, and where they end.
#[derive(Clone, Copy, PartialEq, Eq, Debug)]
pub struct Move {
    pub place: usize,
    pub before: Figures,
    pub after: Figures,
}

impl Move {
    /// The move of an open register to other figures.
    pub fn of(register: OpenRegister, after: Figures) -> Move
        ensures { result ≡ move_to register after }
    {
        Move {
            place: register.place,
            before: register.figures,
            after,
        }
    }
}

/// The move of nothing: at the first place, from figures of 0 to figures of 0.
// the kit's `ArrayVec` asks for it, to fill the places that hold nothing yet
impl Default for Move {
    ghost is_default = { λ m. m ≡ move_to (record { place = 0; figures = no_figures }) no_figures };

    fn default() -> Move {
        let nothing = Figures {
            limit: 0,
            blocked: 0,
            third: 0,
        };
        Move {
            place: 0,
            before: nothing,
            after: nothing,
        }
    }
}
