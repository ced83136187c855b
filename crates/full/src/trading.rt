//! The trade of Level One.

ghost use Rattle.plans.specs.Plans.{Done};
ghost use Rattle.full.specs.Trades.{trade_of};

use crate::deal::Deal;
use crate::engine::Engine;
use crate::mode::Mode;
use crate::moves::Moves;
use crate::pair::Pair;
use crate::putting::put_moves;
use crate::trade_registers::exchange;
use plans::refusal::Refusal;
use registers::amounts::money;
use registers::store::Store;

impl<S: Store> Engine<S> {
    /// Carries out a trade between two live orders with full collateral; answers its money in kopecks.
    /// Both rests fall by the quantity, the securities and the money change hands, and the block of the
    /// quantity at each order's own price is released. Refuses as `Pair::of` does (5, 12, 11, 13 to 17),
    /// then a pair of orders in partial mode (5), an account whose cash or holding is not open (6), figures
    /// out of range (25) and figures that would leave it (26).
    #[tactic(auto, unfolding(crate::specs::Trades::trade_of))]
    pub fn trade(&mut self, deal: Deal) -> Result<i64, Refusal>
        ensures { Done S.Store.made (trade_of self.old.state deal) self.old self.new result }
    {
        let pair = Pair::of(deal, &self.book, self.last_trade)?;
        if pair.buy.mode != Mode::Full {
            return Err(Refusal::BadValue);
        }
        let moves = exchange(&mut self.store, pair)?;
        put_moves(&mut self.store, Moves { list: moves });
        self.book.lower(pair.buy_place, pair.quantity);
        self.book.lower(pair.sell_place, pair.quantity);
        self.last_trade = deal.number;
        Ok(money(pair.quantity, pair.price).into())
    }
}
