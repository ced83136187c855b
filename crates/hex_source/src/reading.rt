//! Reading bytes from a text.

ghost use Rattle.std.specs.Prelude.{◌≡◌, ℕ, List, Ok, IfOk, IfErr, IsErrAnd, MatchResult};
ghost use Rattle.hex_source.specs.declared.misspelling.Misspelling.{Misspelling};
ghost use Rattle.hex_source.specs.Pieces.{IsLaidOut, BreaksOff, IsBreakOf};
ghost use Rattle.hex_source.specs.Spelling.{behind, ended, spelled, IsFaultOf, IsOutOfMemory, IsThatFault};

use crate::effect::Effect;
use crate::fault::Fault;
use crate::misspelling::Misspelling;
use crate::source_error::SourceError;
use crate::standing::Standing;
use std::alloc::Global;

/// A text that was read to its end.
#[derive(Drop)]
struct Reading {
    bytes: Vec<u8>,
    standing: Standing,
    line: usize,
}

/// Reads a text letter by letter, and stops at the first letter that cannot stand where it stands.
fn read(heap: Global, source: &[u8]) -> Result<Reading, SourceError>
    ensures ok { IfOk result (λ reading. spelled source.now ≡ behind reading.bytes.items (ended reading.standing reading.line)) }
    ensures err { IfErr result (IsFaultOf source.now) }
{
    let mut bytes = Vec::new(heap);
    let mut standing = Standing::Between;
    let mut line = 1;
    for letter in source {
        match standing.effect(*letter) {
            Effect::Goes(next) => standing = next,
            Effect::Gives(byte) => {
                bytes.push(byte)?;
                standing = Standing::Between;
            }
            Effect::Fails(fault) => {
                return Err(SourceError::Misspelled(Misspelling { line, fault }));
            }
        }
        if *letter == b'\n' {
            line += 1;
        }
    }
    Ok(Reading {
        bytes,
        standing,
        line,
    })
}

/// The bytes that a text spells. Refuses a text that has a fault, and tells the first one with its line;
/// the bytes before the fault are then lost.
pub fn bytes_of(heap: Global, source: &[u8]) -> Result<Vec<u8>, SourceError>
    ensures ok { IfOk result (λ bytes. spelled source.now ≡ Ok bytes.items) }
    ensures err { IfErr result (IsFaultOf source.now) }

    // by the form of the text alone, with no word of how it is read: what it is laid out of is read, and
    // where it breaks off is told
    ensures laid_out { (bytes : List ℕ) → IsLaidOut source.now bytes → MatchResult result (λ read. read.items ≡ bytes) IsOutOfMemory }
    ensures breaks_off { (misspelling : Misspelling) → BreaksOff source.now misspelling → IsErrAnd result (IsThatFault misspelling) }

    // and the other way: only such a text is read, and only such a fault is told
    ensures was_laid_out { IfOk result (λ read. IsLaidOut source.now read.items) }
    ensures was_broken { IfErr result (IsBreakOf source.now) }
{
    let reading = read(heap, source)?;
    if let Standing::Half(_) = reading.standing {
        return Err(SourceError::Misspelled(Misspelling {
            line: reading.line,
            fault: Fault::HalfByte,
        }));
    }
    Ok(reading.bytes)
}
