//! The ranges of a call's arguments.

ghost use Rattle.std.specs.Prelude.{◌≡◌, ◌≤◌, true, Ok};
ghost use Rattle.plans.specs.declared.refusal.Refusal.TheVariants.{BadValue};
ghost use Rattle.plans.specs.Steps.{demand, ok_as};
ghost use Rattle.full.specs.Terms.{code_ok, security_ok, asset_ok, number_ok, amount_ok, limit_ok};

use plans::refusal::Refusal;
use registers::amounts::Amount;

/// The least account code.
pub const LEAST_ACCOUNT: u32 = 100;

/// The greatest account code.
pub const MOST_ACCOUNT: u32 = 999_999;

/// The greatest number of a security.
pub const MOST_SECURITY: u16 = 9_999;

/// The greatest amount of a credit, and the greatest limit and margin of an opening.
pub const MOST_LIMIT: u64 = 100_000_000_000_000;

// the rules of arguments: each is one comparison, or one test of the library, under the name of its rule, and one
// function for all would be no plainer

/// Whether an account code is from 100 to 999,999.
#[tactic(auto, using(std::proofs::lemmas::Bool::Decides::nat_tests), unfolding(crate::specs::Terms::code_ok))]
pub fn code_ok(code: u32) -> bool
    ensures { result ≡ code_ok code }
{
    (LEAST_ACCOUNT..=MOST_ACCOUNT).contains(&code)
}

/// Whether a security's number is from 1 to 9,999.
#[tactic(auto, using(std::proofs::lemmas::Bool::Decides::nat_tests), unfolding(crate::specs::Terms::security_ok))]
pub fn security_ok(number: u16) -> bool
    ensures { result ≡ security_ok number }
{
    (1..=MOST_SECURITY).contains(&number)
}

/// Whether an account code is in its range, and so is the security that a call names, or that is 0 for cash.
#[tactic(auto, unfolding(crate::specs::Terms::asset_ok))]
pub fn asset_ok(code: u32, security: u16) -> bool
    ensures { result ≡ asset_ok code security }
{
    code_ok(code) && (security == 0 || security_ok(security))
}

/// Whether the number of an order or of a trade is 1 or more.
#[tactic(auto, unfolding(crate::specs::Terms::number_ok))]
pub(crate) fn number_ok(number: u32) -> bool
    ensures { result ≡ number_ok number }
{
    number >= 1
}

/// An amount of kopecks or of pieces. Refuses (5) one outside 1 to 10^14.
#[tactic(auto, using(std::proofs::lemmas::Bool::Decides::nat_tests), unfolding(crate::specs::Terms::amount_ok))]
pub fn amount_of(units: u64) -> Result<Amount, Refusal>
    ensures { ok_as (λ a. a.units) result ≡ demand (amount_ok units) BadValue (Ok units) }
{
    if !(1..=MOST_LIMIT).contains(&units) {
        return Err(Refusal::BadValue);
    }
    Ok(Amount { units })
}

/// Whether a limit or a margin is from 0 to 10^14.
#[tactic(auto, unfolding(crate::specs::Terms::limit_ok))]
pub fn limit_ok(units: u64) -> bool
    ensures answer { result ≡ limit_ok units }
    ensures bound { result ≡ true → units ≤ MOST_LIMIT }
{
    units <= MOST_LIMIT
}
