//! Why a letter cannot stand where it stands.

ghost use Rattle.std.specs.Prelude.{Some};
ghost use Rattle.hex_source.specs.Texts.{fault_text};

use crate::letters::digit;
use std::fmt;

/// Why a letter cannot stand where it stands.
#[derive(Clone, Copy, PartialEq, Eq, Debug)]
pub enum Fault {
    /// This letter is neither a digit nor a blank, and no remark stands here.
    NoDigit(u8),
    /// A byte has only its first digit.
    HalfByte,
}

impl fmt::Display for Fault {
    ghost output = { λ fault. Some (fault_text fault) };

    fn fmt<W: fmt::Write>(&self, f: &mut fmt::Formatter<W>) -> fmt::Result {
        match *self {
            Fault::NoDigit(letter) if letter.is_ascii_graphic() => {
                write!(f, "{} is no digit", char::from(letter))
            }
            Fault::NoDigit(letter) => {
                let high = digit(letter / 16);
                let low = digit(letter % 16);
                write!(f, "the byte {high}{low} is no digit")
            }
            Fault::HalfByte => write!(f, "half a byte"),
        }
    }
}
