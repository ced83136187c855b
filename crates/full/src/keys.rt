//! The keys of registers, and what has to be left of their limits.

ghost use Rattle.std.specs.Prelude.{◌≡◌};
ghost use Rattle.full.specs.Blocks.{cash_key, holding_key, limit_key, participant_key};
ghost use Rattle.full.specs.OpenRegisters.{floor_of};

use registers::key::Key;
use registers::kind::RegisterKind;

/// How many account codes a participant has: the code divided by it, fraction dropped, is the participant.
pub const ACCOUNTS_EACH: u32 = 100;

/// The key of an account's cash.
pub fn cash_key(account: u32) -> Key
    ensures { result ≡ cash_key account }
{
    Key {
        kind: RegisterKind::Cash as u8,
        code: account,
        security: 0,
    }
}

/// The key of an account's holding of a security.
pub fn holding_key(account: u32, security: u16) -> Key
    ensures { result ≡ holding_key account security }
{
    Key {
        kind: RegisterKind::Holding as u8,
        code: account,
        security,
    }
}

/// The key of a participant's limit.
pub fn limit_key(participant: u32) -> Key
    ensures { result ≡ limit_key participant }
{
    Key {
        kind: RegisterKind::Participant as u8,
        code: participant,
        security: 0,
    }
}

/// The key of the limit of an account's participant.
pub fn participant_key(account: u32) -> Key
    ensures { result ≡ participant_key account }
{
    limit_key(account / ACCOUNTS_EACH)
}

/// What has to be left of the limit of a key's register: the reserve of cash in kopecks, and nothing elsewhere.
pub fn floor(reserve: u16, key: Key) -> u16
    ensures { result ≡ floor_of reserve key }
{
    if key.is(RegisterKind::Cash) {
        reserve
    } else {
        0
    }
}
