//! Where the reading of a text stands.

ghost use Rattle.std.specs.Prelude.{◌≡◌};
ghost use Rattle.hex_source.specs.Letters.{sign_of};
ghost use Rattle.hex_source.specs.Spelling.{HoldsDigit, LeavesDigit, effect_of};

use crate::effect::Effect;
use crate::fault::Fault;
use crate::letters::Sign;

/// Where the reading of a text stands.
#[derive(Clone, Copy, PartialEq, Eq, Debug)]
pub(crate) enum Standing {
    /// Between bytes.
    Between,
    /// Behind the first digit of a byte, which has this value.
    Half(u8),
    /// In a remark.
    Remark,
}

impl Standing {
    /// What the next letter makes of the reading.
    pub(crate) fn effect(self, letter: u8) -> Effect
        requires { HoldsDigit self }
        ensures effect { result ≡ effect_of self letter (sign_of letter) }
        ensures held { LeavesDigit result }
    {
        match (self, Sign::of(letter)) {
            (Standing::Remark, Sign::LineEnd) => Effect::Goes(Standing::Between),
            (Standing::Remark, _) => Effect::Goes(Standing::Remark),
            (Standing::Between, Sign::Digit(high)) => Effect::Goes(Standing::Half(high)),
            (Standing::Between, Sign::Blank | Sign::LineEnd) => Effect::Goes(Standing::Between),
            (Standing::Between, Sign::Hash) => Effect::Goes(Standing::Remark),
            (Standing::Half(high), Sign::Digit(low)) => Effect::Gives(16 * high + low),
            (Standing::Half(_), Sign::Blank | Sign::LineEnd | Sign::Hash) => {
                Effect::Fails(Fault::HalfByte)
            }
            (_, Sign::Other) => Effect::Fails(Fault::NoDigit(letter)),
        }
    }
}
