//! The calls of Level One, but for the trade.

ghost use Rattle.std.specs.Prelude.{◌≡◌, IfOk};
ghost use Rattle.plans.specs.Plans.{Done};
ghost use Rattle.registers.specs.Changes.{OnlyAsked};
ghost use Rattle.full.specs.Orders.{live_of};
ghost use Rattle.full.specs.Views.{placed_as};
ghost use Rattle.full.specs.OpenRegisters.{FiguresAt};
ghost use Rattle.full.specs.Calls.{admit_of, enter_of, open_of, credit_of, cover_at, placed_of, announce_of, withdraw_of};

use crate::announcement::Announcement;
use crate::asset::Asset;
use crate::engine::Engine;
use crate::keys::{cash_key, floor, holding_key};
use crate::mode::Mode;
use crate::open_register::{OpenRegister, ask_open, open_register, put_register};
use crate::opening::Opening;
use crate::order::Order;
use crate::placed_order::PlacedOrder;
use crate::ranges::{amount_of, asset_ok, security_ok};
use crate::security::Security;
use plans::refusal::Refusal;
use registers::figures::Figures;
use registers::kind::RegisterKind;
use registers::ranges::Ratio;
use registers::row::Row;
use registers::store::Store;

impl<S: Store> Engine<S> {
    /// Admits a security under a market risk ratio in ten-thousandths; answers the count of securities.
    /// Refuses values outside their ranges (5), a security admitted already (3) and a 65th (4).
    #[tactic(auto, using(crate::proofs::Signed::counted), unfolding(crate::specs::Calls::admit_of))]
    pub fn admit(&mut self, security: u16, ratio: u16) -> Result<i64, Refusal>
        ensures { Done S.Store.made (admit_of self.old.state security ratio) self.old self.new result }
    {
        if !security_ok(security) {
            return Err(Refusal::BadValue);
        }
        let ratio = Ratio::new(u32::from(ratio)).ok_or(Refusal::BadValue)?;
        if self.securities.ratio(security).is_some() {
            return Err(Refusal::SecurityAdmitted);
        }
        self.securities.add(Security {
            number: security,
            ratio,
        })?;
        // `as`, here and below: proved to lose nothing
        Ok(self.securities.count() as i64)
    }

    /// Enters a register into the store; answers the count of rows. Refuses a register open already (1)
    /// and a full store (2).
    #[tactic(auto, unfolding(crate::specs::Calls::enter_of))]
    pub fn enter(&mut self, row: Row) -> Result<i64, Refusal>
        ensures { Done S.Store.made (enter_of self.old.state row) self.old self.new result }
    {
        if self.store.find(row.key).is_some() {
            return Err(Refusal::RegisterOpen);
        }
        let count = self.store.count();
        self.store.add(row)?;
        Ok(count as i64 + 1)
    }

    /// Opens a register of kind 1 or 2; answers the count of rows. Refuses values outside their
    /// ranges (5), a holding of a security that is not admitted (7), a register open already (1) and
    /// a full store (2).
    #[tactic(auto, unfolding(crate::specs::Calls::open_of))]
    pub fn open(&mut self, opening: Opening) -> Result<i64, Refusal>
        ensures { Done S.Store.made (open_of self.old.state opening) self.old self.new result }
    {
        let key = opening.key()?;
        if !key.is(RegisterKind::Cash) && self.securities.ratio(key.security).is_none() {
            return Err(Refusal::NotAdmitted);
        }
        let figures = Figures {
            limit: opening.limit as i64,
            blocked: 0,
            third: 0,
        };
        self.enter(Row { key, figures })
    }

    /// Raises the limit of an account's cash (security 0) by an amount in kopecks, or of its holding by one
    /// in pieces; answers the new limit. Refuses values outside their ranges (5), a register that is not
    /// open (6), figures out of range (25) and figures that would leave it (26).
    #[tactic(auto, using(crate::proofs::Signed::signed), unfolding(crate::specs::Calls::credit_of))]
    pub fn credit(&mut self, code: u32, security: u16, amount: u64) -> Result<i64, Refusal>
        ensures { Done S.Store.made (credit_of self.old.state code security amount) self.old self.new
            result }
    {
        if !asset_ok(code, security) {
            return Err(Refusal::BadValue);
        }
        let amount = amount_of(amount)?;
        let register = open_register(&mut self.store, Asset::named(security).key(code))?;
        let credited = register.credit(amount)?;
        put_register(&mut self.store, register, credited.figures);
        Ok(credited.figures.limit)
    }
}

/// The register that covers an order with full collateral: its account's cash or holding. Refuses (6)
/// where one of the two is not open; the store is as it stood.
#[tactic(auto, unfolding(crate::specs::Calls::cover_at))]
fn cover<S: Store>(store: &mut S, order: Order) -> Result<OpenRegister, Refusal>
    ensures answer { result ≡ cover_at (S.Store.rows store.old) (live_of order) }
    ensures stands { IfOk result (λ h. FiguresAt (S.Store.rows store.old) h.place h.figures) }
    ensures asked { OnlyAsked S.Store.rows S.Store.capacity S.Store.made store.old store.new }
{
    let cash = cash_key(order.account);
    let holding = holding_key(order.account, order.security);
    if order.block_key().is(RegisterKind::Cash) {
        let register = open_register(store, cash)?;
        ask_open(store, holding)?;
        Ok(register)
    } else {
        ask_open(store, cash)?;
        open_register(store, holding)
    }
}

impl<S: Store> Engine<S> {
    /// Announces an order with full collateral; answers its block, in kopecks of a purchase and in pieces
    /// of a sale. Refuses values outside their ranges and partial mode (5), a number not above the last
    /// (8), a security that is not admitted (7), a full book (9), an account whose cash or holding is not
    /// open (6), figures out of range on the register of the block (25), and an order that it does not
    /// cover (10).
    #[tactic(auto, unfolding(crate::specs::Calls::announce_of))]
    pub fn announce(&mut self, announcement: Announcement) -> Result<i64, Refusal>
        ensures { Done S.Store.made (announce_of self.old.state announcement) self.old self.new result }
    {
        if announcement.mode != Mode::Full as u8 {
            return Err(Refusal::BadValue);
        }
        let ready = announcement.ready(&self.securities, &self.book)?;
        let register = cover(&mut self.store, ready.order)?;
        self.place(ready, register)
    }

    /// Blocks a ready order's amount on the register that covers it, by its figures as they were read, and
    /// takes the order into the book; answers the block, in kopecks or in pieces. Refuses figures out of
    /// range on the register (25), and an order that it does not cover (10).
    #[tactic(auto, unfolding(crate::specs::Calls::placed_of))]
    pub fn place(&mut self, ready: PlacedOrder, register: OpenRegister) -> Result<i64, Refusal>
        ensures { Done S.Store.made (placed_of self.old.state (placed_as ready) register) self.old self.new
            result }
    {
        let amount = ready.order.block(ready.order.rest);
        let floor = floor(self.settings.reserve, ready.order.block_key());
        let blocked = register.block(amount, floor)?;
        put_register(&mut self.store, register, blocked.figures);
        self.book.add(ready.place, ready.order);
        Ok(amount.into())
    }

    /// Withdraws a live order, of either mode: the block of its rest is released and the order ends;
    /// answers what was released, in kopecks or in pieces. Refuses a number that names no live order (11),
    /// a register that is not open (6), figures out of range (25) and figures that would leave it (26).
    #[tactic(auto, unfolding(crate::specs::Calls::withdraw_of))]
    pub fn withdraw(&mut self, number: u32) -> Result<i64, Refusal>
        ensures { Done S.Store.made (withdraw_of self.old.state number) self.old self.new result }
    {
        let found = self.book.found(number)?;
        let amount = found.order.block(found.order.rest);
        let register = open_register(&mut self.store, found.order.block_key())?;
        let released = register.release(amount)?;
        put_register(&mut self.store, register, released.figures);
        self.book.free(found.place);
        Ok(amount.into())
    }
}
