//! Writing bytes as the plainest text that spells them.

ghost use Rattle.std.specs.Prelude.{◌≡◌, Ok, IfOk, string_bytes};
ghost use Rattle.hex_source.specs.Letters.{plain};
ghost use Rattle.hex_source.specs.Spelling.{spelled};

use crate::letters::digit;
use std::alloc::{AllocError, Global};

/// The plainest text that spells these bytes: two digits for each, capital letters from ten on, and
/// nothing else. Fails only where memory is short.
pub fn hex_of(heap: Global, bytes: &[u8]) -> Result<String, AllocError>
    ensures written { IfOk result (λ text. string_bytes text ≡ plain bytes.now) }
    ensures read_back { IfOk result (λ text. spelled (string_bytes text) ≡ Ok bytes.now) }
{
    let mut text = String::new(heap);
    for byte in bytes {
        text.push(digit(*byte / 16))?;
        text.push(digit(*byte % 16))?;
    }
    Ok(text)
}
