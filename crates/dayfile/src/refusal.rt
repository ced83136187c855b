//! Why a line of the listing tells a refusal.

ghost use Rattle.std.specs.Prelude.{◌≡◌, Some};
ghost use Rattle.dayfile.specs.declared.refusal.LineRefusal.TheVariants.{Engine as EngineRefusal, File as FileRefusal};
ghost use Rattle.dayfile.specs.Calls.{line_number, line_layer};
ghost use Rattle.dayfile.specs.Texts.{line_refusal_text};

use day_records::fault::FileFault;
use plans::layer::Layer;
use plans::refusal::Refusal;
use std::error::Error;
use std::fmt;

/// A refusal that a line of the listing tells. The engine's refusal is carried whole, and a store's
/// fault within it.
#[derive(Clone, Copy, PartialEq, Eq, Debug)]
pub enum LineRefusal {
    /// The engine refused the record.
    Engine(Refusal),
    /// The file cannot be read on.
    File(FileFault),
}

impl From<Refusal> for LineRefusal {
    ghost from_gives = { λ e r. r ≡ EngineRefusal e };

    fn from(refusal: Refusal) -> LineRefusal {
        LineRefusal::Engine(refusal)
    }
}

impl From<FileFault> for LineRefusal {
    ghost from_gives = { λ e r. r ≡ FileRefusal e };

    fn from(fault: FileFault) -> LineRefusal {
        LineRefusal::File(fault)
    }
}

impl LineRefusal {
    /// The refusal's number.
    pub fn number(self) -> u8
        ensures { result ≡ line_number self }
    {
        match self {
            LineRefusal::Engine(refusal) => refusal.number(),
            LineRefusal::File(fault) => fault.number(),
        }
    }

    /// The layer that brought the refusal about.
    pub fn layer(self) -> Layer
        ensures { result ≡ line_layer self }
    {
        match self {
            LineRefusal::Engine(refusal) => refusal.layer(),
            LineRefusal::File(_) => Layer::File,
        }
    }
}

/// The number and the letter of the layer.
impl fmt::Display for LineRefusal {
    ghost output = { λ r. Some (line_refusal_text r) };

    fn fmt<W: fmt::Write>(&self, f: &mut fmt::Formatter<W>) -> fmt::Result {
        let number = self.number();
        let layer = self.layer();
        write!(f, "{number} {layer}")
    }
}

impl Error for LineRefusal {}
