//! Rounds of dealing on the engine.

ghost use Rattle.std.specs.Prelude.{◌≡◌, ◌*◌};

use crate::call_counts::CallCounts;
use crate::dealings::Dealings;
use crate::size::{FIRST, Size};
use full::announcement::Announcement;
use full::deal::Deal;
use full::engine::Engine;
use full::mode::Mode;
use full::opening::Opening;
use full::side::Side;
use registers::kind::RegisterKind;
use registers::store::Store;

/// The security that is dealt in.
pub const SECURITY: u16 = 5;

/// Its market risk ratio, in ten-thousandths.
const RATIO: u16 = 1_000;

/// The quantity of each order and of each trade, and their price in ten-thousandths of a ruble.
const QUANTITY: u32 = 2;

const PRICE: u32 = 12_345;

/// The limit with which a register is opened, in kopecks or pieces.
const LIMIT: u64 = 100_000_000_000_000;

fn opening(kind: RegisterKind, code: u32, security: u16) -> Opening {
    Opening {
        kind: kind as u8,
        code,
        security,
        limit: LIMIT,
        margin: 0,
    }
}

fn announcement(side: Side, number: u32, account: u32) -> Announcement {
    Announcement {
        side,
        mode: Mode::Full as u8,
        number,
        account,
        security: SECURITY,
        quantity: QUANTITY,
        price: PRICE,
    }
}

fn bargain(number: u32, buy: u32, sell: u32) -> Deal {
    Deal {
        number,
        buy,
        sell,
        quantity: QUANTITY,
        price: PRICE,
    }
}

/// Admits the security.
pub fn admit<S: Store>(engine: &mut Engine<S>) -> CallCounts
    ensures { result.made ≡ 1 }
{
    let mut counts = CallCounts::new();
    counts.count(engine.admit(SECURITY, RATIO));
    counts
}

/// Opens the cash and the holding of every account.
pub fn open<S: Store>(engine: &mut Engine<S>, size: Size) -> CallCounts
    ensures { result.made ≡ 2 * size.accounts }
{
    let mut counts = CallCounts::new();
    for account in FIRST..FIRST + size.accounts {
        counts.count(engine.open(opening(RegisterKind::Cash, account, 0)));
        counts.count(engine.open(opening(RegisterKind::Holding, account, SECURITY)));
    }
    counts
}

/// Carries out the rounds: an order to buy, an order to sell, and their trade.
pub fn deal<S: Store>(engine: &mut Engine<S>, size: Size) -> Dealings
    ensures purchases { result.purchases.made ≡ size.rounds }
    ensures sales { result.sales.made ≡ size.rounds }
    ensures trades { result.trades.made ≡ size.rounds }
{
    let mut purchases = CallCounts::new();
    let mut sales = CallCounts::new();
    let mut trades = CallCounts::new();
    let buyer = size.buyer();
    let seller = size.seller();
    for round in 0..size.rounds {
        let buy = 2 * round + 1;
        let sell = 2 * round + 2;
        purchases.count(engine.announce(announcement(Side::Buy, buy, buyer)));
        sales.count(engine.announce(announcement(Side::Sell, sell, seller)));
        trades.count(engine.trade(bargain(round + 1, buy, sell)));
    }
    Dealings {
        purchases,
        sales,
        trades,
    }
}
