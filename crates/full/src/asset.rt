//! What an account holds: cash, or a security.

ghost use Rattle.std.specs.Prelude.{◌≡◌};
ghost use Rattle.full.specs.Assets.{asset_named, asset_key};

use crate::keys::{cash_key, holding_key};
use registers::key::Key;

/// An asset of an account.
#[derive(Clone, Copy, PartialEq, Eq, Debug)]
pub enum Asset {
    /// Cash, in kopecks.
    Cash,
    /// The security of a number, in pieces.
    Security(u16),
}

impl Asset {
    /// The asset that a call names: a security by its number, cash by 0.
    pub fn named(security: u16) -> Asset
        ensures { result ≡ asset_named security }
    {
        if security == 0 {
            Asset::Cash
        } else {
            Asset::Security(security)
        }
    }

    /// The key of an account's register of the asset.
    pub fn key(self, account: u32) -> Key
        ensures { result ≡ asset_key self account }
    {
        match self {
            Asset::Cash => cash_key(account),
            Asset::Security(security) => holding_key(account, security),
        }
    }
}
