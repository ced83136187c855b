//! Carrying out a record.

ghost use Rattle.day_records.specs.Kinds.{kind_of, body_of};
ghost use Rattle.dayfile.specs.Lines.{Carried};

use crate::calls::call;
use crate::refusal::LineRefusal;
use day_records::record::Record;
use partial::engine::Engine;
use plans::machine::Machine;
use registers::store::Store;

/// Carries out a record as the one call that it asks for; answers what the engine answers. Refuses as
/// `call` does (32), and as the engine does; the engine and its store are then as they stood.
pub fn carry_out<S: Store>(engine: &mut Engine<S>, record: Record<'_>) -> Result<i64, LineRefusal>
    ensures { Carried S.Store.made (kind_of «record».entry) (body_of «record».entry) engine.old engine.new
        result }
{
    let call = call(record)?;
    Ok(engine.carry_out(call)?)
}
