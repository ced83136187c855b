//! The layers that bring refusals about.

ghost use Rattle.std.specs.Prelude.{◌≡◌, Some};
ghost use Rattle.plans.specs.Refusals.{letter_of, layer_text};

use std::fmt;

/// The layer that brings a refusal about.
#[derive(Clone, Copy, PartialEq, Eq, Debug)]
pub enum Layer {
    /// The store, S.
    Store,
    /// The engine, L.
    Engine,
    /// The day file, F.
    File,
}

impl Layer {
    /// The layer's letter.
    pub fn letter(self) -> char
        ensures { result ≡ letter_of self }
    {
        // a match: letters beside the cases, where the numbers of characters would hide them
        match self {
            Layer::Store => 'S',
            Layer::Engine => 'L',
            Layer::File => 'F',
        }
    }
}

/// The layer's letter.
impl fmt::Display for Layer {
    ghost output = { λ l. Some (layer_text l) };

    fn fmt<W: fmt::Write>(&self, f: &mut fmt::Formatter<W>) -> fmt::Result {
        let letter = self.letter();
        write!(f, "{letter}")
    }
}
