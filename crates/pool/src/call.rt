//! The calls of Level Three as values.

ghost use Rattle.std.specs.Prelude.{◌≡◌};
ghost use Rattle.pool.specs.declared.call.Call.TheVariants.{Partial as PartialOf};

use partial::call::Call as PartialCall;

/// One call of the engine with its arguments: a call of Level Two's, or one of Level Three's own. A ticket
/// is none of them: whoever carries calls out shows it.
#[derive(Clone, Copy, PartialEq, Eq, Debug)]
pub enum Call {
    Partial(PartialCall),
    Earmark { code: u32, security: u16 },
    Deliver { number: u32 },
    Pay { number: u32 },
    Close,
}

impl From<PartialCall> for Call {
    ghost from_gives = { λ c r. r ≡ PartialOf c };

    fn from(call: PartialCall) -> Call {
        Call::Partial(call)
    }
}
