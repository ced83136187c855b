//! The lines of a day, written.

ghost use Rattle.std.specs.Prelude.{◌≡◌, [], ◌∷◌, ◌++◌, OnOk};
ghost use Rattle.std.specs.Io.KnownBytes.{Appends};
ghost use Rattle.dayfile.specs.Days.{lines_left, calls_left, GoesOn};
ghost use Rattle.dayfile.specs.Texts.{line_text, listing_text};

use crate::day::Day;
use crate::line::Line;
use registers::store::Store;
use std::io;
use std::io::Write;

/// Writes a line with its end.
fn write_line<W: Write>(line: Line, out: &mut W) -> io::Result<()>
    ensures { OnOk result (Appends (W.contents out.old) (W.contents out.new) (line_text line ++ 10 ∷ [])) }
{
    writeln!(out, "{line}")
}

/// Writes the lines of a day that are still to be told, each with its end, one after the other; a record
/// is carried out when its line is told. What the writer refuses ends the writing, and the day has then gone
/// on by the lines that were told, the one that was refused among them.
pub fn write_lines<S: Store, W: Write>(day: &mut Day<'_, S>, out: &mut W) -> io::Result<()>
    ensures written { OnOk result
        (Appends (W.contents out.old) (W.contents out.new) (listing_text (lines_left day.old))) }
    ensures told { OnOk result (lines_left day.new ≡ []) }
    ensures called { OnOk result (calls_left day.new ≡ []) }
    ensures goes_on { GoesOn day.old day.new }
{
    while let Some(line) = day.next_line() {
        write_line(line, out)?;
    }
    Ok(())
}
