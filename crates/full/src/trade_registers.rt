//! The registers of a trade with full collateral.

ghost use Rattle.std.specs.Prelude.{◌≡◌, ◌≢◌, IfOk};
ghost use Rattle.std.specs.List.{list_all};
ghost use Rattle.registers.specs.Changes.{OnlyAsked};
ghost use Rattle.registers.specs.Registers.{in_range};
ghost use Rattle.full.specs.Trades.{trade_registers_of, ended_of, exchange_of, moves_of, Following};
ghost use Rattle.full.specs.Views.{pair_as};

use crate::keys::{cash_key, holding_key};
use crate::open_register::{OpenRegister, limit_raised, open_register, paid};
use crate::pair::Pair;
use crate::register_move::Move;
use plans::refusal::Refusal;
use registers::amounts::{Amount, money};
use registers::figures::Figures;
use registers::ranges::Quantity;
use registers::store::Store;

/// The registers of a trade with full collateral: cash and holding of the buyer's account and of the
/// seller's.
#[derive(Clone, Copy, PartialEq, Eq, Debug)]
pub struct TradeRegisters {
    pub buyer_cash: OpenRegister,
    pub seller_cash: OpenRegister,
    pub buyer_holding: OpenRegister,
    pub seller_holding: OpenRegister,
}

// inlined, here and below: what is handed over are many words, which a call copies
#[inline(always)]
fn all_in(figures: [Figures; 4]) -> bool
    ensures { result ≡ list_all in_range figures }
{
    let [buyer_cash, seller_cash, buyer_holding, seller_holding] = figures;
    buyer_cash.in_range()
        && seller_cash.in_range()
        && buyer_holding.in_range()
        && seller_holding.in_range()
}

/// The registers of a trade with full collateral. Refuses (6) where one is not open; the store is as it
/// stood.
#[tactic(auto, unfolding(crate::specs::Trades::trade_registers_of))]
fn trade_registers<S: Store>(
    store: &mut S,
    buyer: u32,
    seller: u32,
    security: u16,
) -> Result<TradeRegisters, Refusal>
    ensures answer { result ≡ trade_registers_of (S.Store.rows store.old) buyer seller security }
    ensures asked { OnlyAsked S.Store.rows S.Store.capacity S.Store.made store.old store.new }
{
    let buyer_cash = open_register(store, cash_key(buyer))?;
    let seller_cash = open_register(store, cash_key(seller))?;
    let buyer_holding = open_register(store, holding_key(buyer, security))?;
    let seller_holding = open_register(store, holding_key(seller, security))?;
    Ok(TradeRegisters {
        buyer_cash,
        seller_cash,
        buyer_holding,
        seller_holding,
    })
}

impl TradeRegisters {
    /// Where the registers end. Refuses figures out of range (25), and figures that would leave it (26),
    /// each over all four.
    #[tactic(auto, unfolding(crate::specs::Trades::ended_of))]
    #[inline(always)]
    fn ended(self, quantity: Quantity, value: Amount, block: Amount) -> Result<[Move; 4], Refusal>
        ensures answer { result ≡ ended_of self quantity.value value.units block.units }
        ensures moves { IfOk result (λ m. m ≡ moves_of self quantity.value value.units block.units) }
    {
        let pieces = Amount::from(quantity);
        let buyer_cash = paid(self.buyer_cash.figures.checked()?, value, block);
        let seller_cash = limit_raised(self.seller_cash.figures.checked()?, value);
        let buyer_holding = limit_raised(self.buyer_holding.figures.checked()?, pieces);
        let seller_holding = paid(self.seller_holding.figures.checked()?, pieces, pieces);
        if !all_in([buyer_cash, seller_cash, buyer_holding, seller_holding]) {
            return Err(Refusal::LeavesRange);
        }
        Ok([
            Move::of(self.buyer_cash, buyer_cash),
            Move::of(self.seller_cash, seller_cash),
            Move::of(self.buyer_holding, buyer_holding),
            Move::of(self.seller_holding, seller_holding),
        ])
    }
}

/// The moves of a trade with full collateral between two orders. Refuses (6) a register that is not
/// open, figures out of range (25), and figures that would leave it (26), each over all four; the
/// store is as it stood.
#[tactic(auto, unfolding(crate::specs::Trades::exchange_of))]
pub(crate) fn exchange<S: Store>(store: &mut S, pair: Pair) -> Result<[Move; 4], Refusal>
    requires { pair.buy.account ≢ pair.sell.account }
    ensures answer { result ≡ exchange_of (S.Store.rows store.old) (pair_as pair) }
    ensures follow { IfOk result (λ ms. Following (S.Store.rows store.old) ms) }
    ensures asked { OnlyAsked S.Store.rows S.Store.capacity S.Store.made store.old store.new }
{
    let registers = trade_registers(
        store,
        pair.buy.account,
        pair.sell.account,
        pair.buy.security,
    )?;
    let value = money(pair.quantity, pair.price);
    registers.ended(pair.quantity, value, money(pair.quantity, pair.buy.price))
}
