//! A fault with its line.

ghost use Rattle.std.specs.Prelude.{Some};
ghost use Rattle.hex_source.specs.Texts.{misspelling_text};

use crate::fault::Fault;
use std::fmt;

/// A fault, and its line, counted from 1.
#[derive(Clone, Copy, PartialEq, Eq, Debug)]
pub struct Misspelling {
    pub line: usize,
    pub fault: Fault,
}

impl fmt::Display for Misspelling {
    ghost output = { λ misspelling. Some (misspelling_text misspelling) };

    fn fmt<W: fmt::Write>(&self, f: &mut fmt::Formatter<W>) -> fmt::Result {
        let line = self.line;
        let fault = self.fault;
        write!(f, "line {line}: {fault}")
    }
}
