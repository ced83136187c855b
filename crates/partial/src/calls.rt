//! The calls of Level Two.

ghost use Rattle.std.specs.Prelude.{◌≡◌};
ghost use Rattle.plans.specs.Plans.{Done};
ghost use Rattle.full.specs.Views.{pair_as};
ghost use Rattle.full.specs.Calls.{admit_of, credit_of, withdraw_of};
ghost use Rattle.partial.specs.State.{down};
ghost use Rattle.partial.specs.Calls.{announce_of, debit_of, open_of, partial_trade_of, post_of, trade_of};

use crate::engine::Engine;
use crate::limits::{cover, debit_on, limit_opening_ok, limits_drawn, participant_ok, post_on};
use crate::obligation::Obligation;
use crate::stage::Stage;
use full::announcement::Announcement;
use full::deal::Deal;
use full::keys::limit_key;
use full::mode::Mode;
use full::moves::Moves;
use full::open_register::{open_register, put_register};
use full::opening::Opening;
use full::pair::Pair;
use full::putting::put_moves;
use full::ranges::amount_of;
use plans::refusal::Refusal;
use registers::amounts::money;
use registers::figures::Figures;
use registers::kind::RegisterKind;
use registers::row::Row;
use registers::store::Store;

impl<S: Store> Engine<S> {
    /// Admits a security, as Level One does (5, 3, 4).
    #[tactic(auto, using(plans::proofs::Handing::handing))]
    pub fn admit(&mut self, security: u16, ratio: u16) -> Result<i64, Refusal>
        ensures { Done S.Store.made (down self.old.state (admit_of self.old.state.base security ratio))
            self.old self.new result }
    {
        self.full.admit(security, ratio)
    }

    /// Credits cash or a holding, as Level One does (5, 6, 25, 26).
    #[tactic(auto, using(plans::proofs::Handing::handing))]
    pub fn credit(&mut self, code: u32, security: u16, amount: u64) -> Result<i64, Refusal>
        ensures { Done S.Store.made
            (down self.old.state (credit_of self.old.state.base code security amount)) self.old
            self.new result }
    {
        self.full.credit(code, security, amount)
    }

    /// Withdraws a live order of either mode, as Level One does (11, 6, 25, 26).
    #[tactic(auto, using(plans::proofs::Handing::handing))]
    pub fn withdraw(&mut self, number: u32) -> Result<i64, Refusal>
        ensures { Done S.Store.made (down self.old.state (withdraw_of self.old.state.base number))
            self.old self.new result }
    {
        self.full.withdraw(number)
    }

    /// Opens a register: of kind 3 a participant's limit, of another kind as Level One does; answers the
    /// count of rows. Refuses values outside their ranges (5), a holding of a security that is not
    /// admitted (7), a register open already (1) and a full store (2).
    #[tactic(auto, using(plans::proofs::Handing::handing), unfolding(crate::specs::Calls::open_of, crate::specs::Calls::limit_row))]
    pub fn open(&mut self, opening: Opening) -> Result<i64, Refusal>
        ensures { Done S.Store.made (open_of self.old.state opening) self.old self.new result }
    {
        if opening.kind != RegisterKind::Participant as u8 {
            return self.full.open(opening);
        }
        if !limit_opening_ok(opening) {
            return Err(Refusal::BadValue);
        }
        let limit = opening.limit as i64;
        let figures = Figures {
            limit,
            blocked: opening.margin as i64,
            third: limit,
        };
        self.full.enter(Row {
            key: limit_key(opening.code),
            figures,
        })
    }

    /// Announces an order: in partial mode its block lies on the participant's limit, otherwise as Level
    /// One does; answers the block in kopecks or pieces. Refuses values outside their ranges (5), a number
    /// not above the last (8), a security that is not admitted (7), a full book (9), an account whose cash
    /// or holding, or in partial mode whose participant's limit, is not open (6), figures out of range on
    /// the register of the block (25), and an order that it does not cover (10).
    #[tactic(auto, using(plans::proofs::Handing::handing), unfolding(crate::specs::Calls::announce_of))]
    pub fn announce(&mut self, announcement: Announcement) -> Result<i64, Refusal>
        ensures { Done S.Store.made (announce_of self.old.state announcement) self.old self.new result }
    {
        if announcement.mode != Mode::Partial as u8 {
            return self.full.announce(announcement);
        }
        let ready = announcement.ready(&self.full.securities, &self.full.book)?;
        let register = cover(&mut self.full.store, ready.order)?;
        self.full.place(ready, register)
    }

    /// Carries out a trade: between orders with full collateral as Level One does; between two in partial
    /// mode both limits fall, and an obligation is entered under the trade's number. Answers the money in
    /// kopecks. Refuses as `Pair::of` does (5, 12, 11, 13 to 17), and then, in partial mode, a table of
    /// obligations that is full (18), and in either mode a register that is not open (6), figures out of
    /// range (25) and figures that would leave it (26).
    #[tactic(auto, using(plans::proofs::Handing::handing), unfolding(crate::specs::Calls::trade_of))]
    pub fn trade(&mut self, deal: Deal) -> Result<i64, Refusal>
        ensures { Done S.Store.made (trade_of self.old.state deal) self.old self.new result }
    {
        let pair = Pair::of(deal, &self.full.book, self.full.last_trade)?;
        if pair.buy.mode == Mode::Full {
            return self.full.trade(deal);
        }
        self.partial_trade(deal.number, pair)
    }

    /// A trade between two orders in partial mode that passed their checks; answers its money. Refuses a table
    /// that is full (18), a participant's limit that is not open (6), figures out of range (25) and figures that
    /// would leave it (26).
    #[tactic(auto, unfolding(crate::specs::Calls::partial_trade_of))]
    fn partial_trade(&mut self, number: u32, pair: Pair) -> Result<i64, Refusal>
        ensures { Done S.Store.made (partial_trade_of self.old.state number (pair_as pair)) self.old self.new
            result }
    {
        let place = self
            .obligations
            .free_place()
            .ok_or(Refusal::ObligationsFull)?;
        let ratio = self
            .full
            .securities
            .ratio(pair.buy.security)
            .unwrap_or(pair.buy.ratio);
        let drawn = limits_drawn(&mut self.full.store, pair, ratio)?;
        let moves = Moves {
            list: [drawn.buyer, drawn.seller],
        };
        put_moves(&mut self.full.store, moves);
        self.full.book.lower(pair.buy_place, pair.quantity);
        self.full.book.lower(pair.sell_place, pair.quantity);
        self.full.last_trade = number;
        let money = money(pair.quantity, pair.price);
        let obligation = Obligation {
            number,
            seller: pair.sell.account,
            buyer: pair.buy.account,
            security: pair.buy.security,
            quantity: pair.quantity.value,
            money: money.units,
            stage: Stage::BothOwed,
        };
        self.obligations.enter(place, obligation);
        Ok(money.into())
    }

    /// Raises a participant's limit and collateral by an amount in kopecks; answers the new limit. Refuses
    /// values outside their ranges (5), a limit that is not open (6), figures out of range (25) and figures
    /// that would leave it (26).
    #[tactic(auto, using(full::proofs::Signed::signed), unfolding(crate::specs::Calls::post_of))]
    pub fn post(&mut self, participant: u16, amount: u64) -> Result<i64, Refusal>
        ensures { Done S.Store.made (post_of self.old.state participant amount) self.old self.new result }
    {
        if !participant_ok(u32::from(participant)) {
            return Err(Refusal::BadValue);
        }
        let amount = amount_of(amount)?;
        let register = open_register(&mut self.full.store, limit_key(u32::from(participant)))?;
        let raised = post_on(register, amount)?;
        put_register(&mut self.full.store, register, raised.figures);
        Ok(raised.figures.limit)
    }

    /// Lowers a participant's limit and collateral by an amount in kopecks; answers the new limit. Refuses
    /// values outside their ranges (5), a limit that is not open (6), figures out of range (25), an amount
    /// above the collateral (20), a margin call (19) and an amount that leaves the limit no higher than the
    /// blocked figure (21).
    #[tactic(auto, using(full::proofs::Signed::signed), unfolding(crate::specs::Calls::debit_of))]
    pub fn debit(&mut self, participant: u16, amount: u64) -> Result<i64, Refusal>
        ensures { Done S.Store.made (debit_of self.old.state participant amount) self.old self.new result }
    {
        if !participant_ok(u32::from(participant)) {
            return Err(Refusal::BadValue);
        }
        let amount = amount_of(amount)?;
        let register = open_register(&mut self.full.store, limit_key(u32::from(participant)))?;
        let lowered = debit_on(register, amount)?;
        put_register(&mut self.full.store, register, lowered.figures);
        Ok(lowered.figures.limit)
    }
}
