//! The numbers of the constants that the definitions and the contracts cite.

ghost use Rattle.registers.specs.Constants.{ImageNumbers, FigureNumbers, AmountNumbers};

/// The constants of images, of figures and of amounts have the numbers that are promised of them.
pub fn constants_hold()
    ensures images { ImageNumbers }
    ensures figures { FigureNumbers }
    ensures amounts { AmountNumbers }
{}
