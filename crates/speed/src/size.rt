//! How much is dealt.

ghost use Rattle.std.specs.Prelude.{◌≡◌, ◌+◌, ◌≤◌};

/// The first account.
pub const FIRST: u32 = 700;

/// How many accounts there are, from 700 on, and how many rounds are carried out. In each round the last
/// account but one buys from the last.
#[derive(Clone, Copy, PartialEq, Eq, Debug)]
pub struct Size {
    pub accounts: u32,
    pub rounds: u32,
    ghost two: { 2 ≤ accounts },
    ghost stored: { accounts ≤ 2000 },
    ghost numbered: { rounds ≤ 1000000 },
}

impl Size {
    /// The account that buys.
    pub fn buyer(self) -> u32
        ensures { result ≡ 698 + self.accounts }
    {
        FIRST + self.accounts - 2
    }

    /// The account that sells.
    pub fn seller(self) -> u32
        ensures { result ≡ 699 + self.accounts }
    {
        FIRST + self.accounts - 1
    }
}
