//! What covers a block.

ghost use Rattle.registers.specs.Registers.{Within};

use registers::amounts::Amount;

/// What has to cover a block: the limit, less the blocked figure once it is raised by the amount,
/// leaves the floor.
#[derive(Clone, Copy, PartialEq, Eq, Debug)]
pub struct Cover {
    pub limit: i64,
    pub amount: Amount,
    pub floor: u16,
    ghost within: { Within limit },
}
