//! What the letters of a text are.

ghost use Rattle.std.specs.Prelude.{◌≡◌, ◌<◌};
ghost use Rattle.hex_source.specs.Letters.{sign_of, digit};

/// What a letter is.
#[derive(Clone, Copy, PartialEq, Eq, Debug)]
pub(crate) enum Sign {
    /// A hex digit, with its value.
    Digit(u8),
    /// A blank, a tab or a carriage return.
    Blank,
    /// A line feed.
    LineEnd,
    /// A #.
    Hash,
    /// Any other letter.
    Other,
}

impl Sign {
    /// What a letter is.
    pub(crate) fn of(letter: u8) -> Sign
        ensures { result ≡ sign_of letter }
    {
        if let Some(value) = char::from(letter).to_digit(16) {
            return Sign::Digit(value as u8);
        }
        match letter {
            b' ' | b'\t' | b'\r' => Sign::Blank,
            b'\n' => Sign::LineEnd,
            b'#' => Sign::Hash,
            _ => Sign::Other,
        }
    }
}

/// The digit of a value below 16, a capital letter from ten on.
pub(crate) fn digit(value: u8) -> char
    requires { value < 16 }
    ensures { result ≡ digit value }
{
    if value < 10 {
        char::from(b'0' + value)
    } else {
        char::from(b'A' + (value - 10))
    }
}
