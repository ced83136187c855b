//! The calls of Level Three.

ghost use Rattle.std.specs.Prelude.{◌≡◌};
ghost use Rattle.plans.specs.Plans.{Done};
ghost use Rattle.full.specs.Calls.{admit_of, credit_of, withdraw_of};
ghost use Rattle.partial.specs.State.{down};
ghost use Rattle.partial.specs.Calls.{announce_of, debit_of, open_of, post_of, trade_of};
ghost use Rattle.pool.specs.Calls.{close_of, deliver_of, earmark_of, pay_of, settle_of};

use crate::debt::Debt;
use crate::earmark::earmark_at;
use crate::engine::Engine;
use crate::leg::Leg;
use crate::need::owed_over;
use crate::passing::thirds_passed;
use crate::placed_obligation::PlacedObligation;
use crate::settle::Settle;
use crate::sweep::{all_may_sweep, sweep_all};
use crate::ticket::{Collecting, Ending};
use full::announcement::Announcement;
use full::asset::Asset;
use full::deal::Deal;
use full::keys::floor;
use full::moves::Moves;
use full::open_register::put_register;
use full::opening::Opening;
use full::putting::put_moves;
use full::ranges::asset_ok;
use plans::refusal::Refusal;
use registers::store::Store;

impl<S: Store> Engine<S> {
    /// Admits a security, as Level One does (5, 3, 4).
    pub fn admit(&mut self, security: u16, ratio: u16) -> Result<i64, Refusal>
        ensures { Done S.Store.made (down self.old.state (admit_of self.old.state.base security ratio))
            self.old self.new result }
    {
        self.partial.admit(security, ratio)
    }

    /// Opens a register of any kind, as Level Two does (5, 7, 1, 2).
    pub fn open(&mut self, opening: Opening) -> Result<i64, Refusal>
        ensures { Done S.Store.made (open_of self.old.state opening) self.old self.new result }
    {
        self.partial.open(opening)
    }

    /// Credits cash or a holding, as Level One does (5, 6, 25, 26).
    pub fn credit(&mut self, code: u32, security: u16, amount: u64) -> Result<i64, Refusal>
        ensures { Done S.Store.made
            (down self.old.state (credit_of self.old.state.base code security amount)) self.old
            self.new result }
    {
        self.partial.credit(code, security, amount)
    }

    /// Announces an order of either mode, as Level Two does (5, 8, 7, 9, 6, 25, 10).
    pub fn announce(&mut self, announcement: Announcement) -> Result<i64, Refusal>
        ensures { Done S.Store.made (announce_of self.old.state announcement) self.old self.new result }
    {
        self.partial.announce(announcement)
    }

    /// Withdraws a live order of either mode, as Level One does (11, 6, 25, 26).
    pub fn withdraw(&mut self, number: u32) -> Result<i64, Refusal>
        ensures { Done S.Store.made (down self.old.state (withdraw_of self.old.state.base number))
            self.old self.new result }
    {
        self.partial.withdraw(number)
    }

    /// Carries out a trade of either mode, as Level Two does (5, 12, 11, 13 to 18, 6, 25, 26).
    pub fn trade(&mut self, deal: Deal) -> Result<i64, Refusal>
        ensures { Done S.Store.made (trade_of self.old.state deal) self.old self.new result }
    {
        self.partial.trade(deal)
    }

    /// Raises a participant's limit and collateral, as Level Two does (5, 6, 25, 26).
    pub fn post(&mut self, participant: u16, amount: u64) -> Result<i64, Refusal>
        ensures { Done S.Store.made (post_of self.old.state participant amount) self.old self.new result }
    {
        self.partial.post(participant, amount)
    }

    /// Lowers a participant's limit and collateral, as Level Two does (5, 6, 25, 20, 19, 21).
    pub fn debit(&mut self, participant: u16, amount: u64) -> Result<i64, Refusal>
        ensures { Done S.Store.made (debit_of self.old.state participant amount) self.old self.new result }
    {
        self.partial.debit(participant, amount)
    }

    /// Earmarks for an account what it owes of cash (security 0) or of a security: of what is owed and not
    /// earmarked yet, and of what is free of the limit, the smaller moves from the limit to the third
    /// figure, if it is above zero; answers what moved, or 0, in kopecks or in pieces. Refuses values
    /// outside their ranges (5), a register that is not open (6), figures out of range (25) and figures
    /// that would leave it (26).
    #[tactic(auto, unfolding(crate::specs::Calls::earmark_of))]
    pub fn earmark(
        &mut self,
        _ticket: &Collecting,
        code: u32,
        security: u16,
    ) -> Result<i64, Refusal>
        ensures { Done S.Store.made (earmark_of self.old.state code security) self.old self.new result }
    {
        if !asset_ok(code, security) {
            return Err(Refusal::BadValue);
        }
        let asset = Asset::named(security);
        let owed = owed_over(&self.partial.obligations.table, code, asset);
        let floor = floor(self.partial.full.settings.reserve, asset.key(code));
        let earmark = earmark_at(&mut self.partial.full.store, code, asset, owed, floor)?;
        put_register(
            &mut self.partial.full.store,
            earmark.register,
            earmark.after,
        );
        Ok(earmark.amount)
    }

    /// Settles the securities of an obligation, named by its trade's number: the seller's third figure falls by
    /// the quantity and the buyer's rises; answers the quantity. Refuses as `settle` does (22, 23, 6, 25,
    /// 24, 26).
    pub fn deliver(&mut self, _ticket: &Ending, number: u32) -> Result<i64, Refusal>
        ensures { Done S.Store.made (deliver_of self.old.state number) self.old self.new result }
    {
        self.settle(Leg::Securities, number)
    }

    /// Settles the money of an obligation, named by its trade's number: the buyer's third figure falls by the
    /// amount and the seller's rises; answers the amount in kopecks. Refuses as `settle` does (22, 23, 6,
    /// 25, 24, 26).
    pub fn pay(&mut self, _ticket: &Ending, number: u32) -> Result<i64, Refusal>
        ensures { Done S.Store.made (pay_of self.old.state number) self.old self.new result }
    {
        self.settle(Leg::Money, number)
    }

    /// Settles a leg of an obligation, which leaves the table after its second leg; answers the amount. Refuses
    /// a number that names no obligation (22), a leg that is settled already (23), a register of the debtor's
    /// or the creditor's that is not open (6), figures out of range (25), a debtor's third figure below the
    /// amount (24) and figures that would leave their range (26).
    #[tactic(auto, using(full::proofs::Signed::signed), unfolding(crate::specs::Calls::settle_of))]
    fn settle(&mut self, leg: Leg, number: u32) -> Result<i64, Refusal>
        ensures { Done S.Store.made (settle_of self.old.state leg number) self.old self.new result }
    {
        let found = PlacedObligation::of(&self.partial.obligations, number)?;
        let left = found.obligation.settle(leg)?;
        let debt = Debt::of(found.obligation, leg);
        let passed = thirds_passed(&mut self.partial.full.store, debt)?;
        let moves = Moves {
            list: [passed.debtor, passed.creditor],
        };
        put_moves(&mut self.partial.full.store, moves);
        found.leave(&mut self.partial.obligations.table, left);
        Ok(debt.amount as i64)
    }

    /// Closes the pool, and takes the ticket in, also where it refuses: every third figure of cash and of
    /// holdings joins its limit; collateral stays. Answers how many of them were not zero. Refuses figures
    /// of cash or of a holding that are out of range (25).
    #[tactic(auto, unfolding(crate::specs::Calls::close_of))]
    pub fn close(&mut self, ticket: Ending) -> Result<i64, Refusal>
        ensures { Done S.Store.made (close_of self.old.state) self.old self.new result }
    {
        // before the first `?`: where a ticket is held, no `?` may leave
        ticket.spend();
        all_may_sweep(&mut self.partial.full.store)?;
        Ok(sweep_all(&mut self.partial.full.store) as i64)
    }
}
