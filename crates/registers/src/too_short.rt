//! What bytes that are too short for an image are told by.

ghost use Rattle.std.specs.Prelude.{Some};
ghost use Rattle.registers.specs.Texts.{too_short_text};

use std::error::Error;
use std::fmt;

/// Bytes are too short for the header of an image.
#[derive(Clone, Copy, PartialEq, Eq, Debug)]
pub struct TooShort;

/// What the bytes are too short for.
impl fmt::Display for TooShort {
    ghost output = { λ e. Some too_short_text };

    fn fmt<W: fmt::Write>(&self, f: &mut fmt::Formatter<W>) -> fmt::Result {
        write!(f, "too short for the header of an image")
    }
}

impl Error for TooShort {}
