//! The listing of a whole day as text.

ghost use Rattle.std.specs.Prelude.{◌≡◌, IfOk, string_bytes};
ghost use Rattle.dayfile.specs.Lines.{lines_of};
ghost use Rattle.dayfile.specs.Texts.{listing_text};

use crate::day::Day;
use registers::store::Store;
use std::alloc::{AllocError, Global};

/// The listing of a day file, carried out by a new engine over a store. Any bytes have one: a file that
/// cannot be read to its end has a line that says where and why. `AllocError` where memory does not
/// suffice for the text. The store is let go: who wants its rows afterwards drives a `Day`.
pub fn listing<S: Store + Drop>(heap: Global, store: S, file: &[u8]) -> Result<String, AllocError>
    ensures { IfOk result
        (λ t. string_bytes t ≡ listing_text (lines_of (S.Store.rows store) (S.Store.capacity store) file.now)) }
{
    let mut text = String::new(heap);
    for line in Day::new(store, file) {
        writeln!(text, "{line}")?;
    }
    Ok(text)
}
