//! Places of faults.

use std::fmt;

/// Where a fault was found.
#[derive(Clone, Copy, PartialEq, Eq, Debug)]
pub enum Place {
    /// Between the calls and their answers.
    Answers,
    /// In the engine over a row store.
    Rows,
    /// In the engine over an image.
    Image,
    /// In the engine over a row store whose changes are counted.
    Counted,
}

impl fmt::Display for Place {
    fn fmt<W: fmt::Write>(&self, f: &mut fmt::Formatter<W>) -> fmt::Result {
        f.write_str(match self {
            Place::Answers => "of the answers",
            Place::Rows => "over the row store",
            Place::Image => "over the image",
            Place::Counted => "over the counted store",
        })
    }
}
