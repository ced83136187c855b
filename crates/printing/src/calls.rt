//! The calls of the sample dealings, in short.

ghost use Rattle.std.specs.Prelude.{◌≡◌};
ghost use Rattle.registers.specs.Registers.{kind_number};
ghost use Rattle.full.specs.declared.call.Call.TheVariants.{Open, Announce, Trade};
ghost use Rattle.full.specs.declared.mode.Mode.TheVariants.{Full};
ghost use Rattle.full.specs.Terms.{mode_number};

use full::announcement::Announcement;
use full::call::Call;
use full::deal::Deal;
use full::mode::Mode;
use full::opening::Opening;
use full::side::Side;
use registers::kind::RegisterKind;

/// The security that the sample dealings trade.
pub const SECURITY: u16 = 5;

/// The opening of a register, without a margin.
pub fn open(kind: RegisterKind, code: u32, security: u16, limit: u64) -> Call
    ensures { result ≡ Open (record { kind = kind_number kind; code = code; security = security; limit = limit; margin = 0 }) }
{
    Call::Open(Opening {
        kind: kind as u8,
        code,
        security,
        limit,
        margin: 0,
    })
}

/// The announcement of an order in security 5 with full collateral.
pub fn announce(side: Side, number: u32, account: u32, quantity: u32, price: u32) -> Call
    ensures { result ≡ Announce (record { side = side; mode = mode_number Full; number = number; account = account; security = SECURITY; quantity = quantity; price = price }) }
{
    Call::Announce(Announcement {
        side,
        mode: Mode::Full as u8,
        number,
        account,
        security: SECURITY,
        quantity,
        price,
    })
}

/// A trade of a purchase with the sale of number 2.
pub fn trade(number: u32, buy: u32, quantity: u32, price: u32) -> Call
    ensures { result ≡ Trade (record { number = number; buy = buy; sell = 2; quantity = quantity; price = price }) }
{
    Call::Trade(Deal {
        number,
        buy,
        sell: 2,
        quantity,
        price,
    })
}
