//! The kinds of records.

ghost use Rattle.std.specs.Prelude.{◌≡◌};

/// What a record asks for.
#[derive(Clone, Copy, PartialEq, Eq, Debug)]
pub enum RecordKind {
    /// A: admit a security.
    Admit,
    /// O: open a register.
    Open,
    /// C: credit a register.
    Credit,
    /// H: post collateral.
    Post,
    /// B: announce a purchase.
    Buy,
    /// S: announce a sale.
    Sell,
    /// W: withdraw an order.
    Withdraw,
    /// T: trade two orders.
    Trade,
    /// D: debit collateral.
    Debit,
}

impl RecordKind {
    ghost use Rattle.day_records.specs.Kinds.{letter_of};

    /// The letter of the kind.
    pub fn letter(self) -> char
        ensures { result ≡ letter_of self }
    {
        // a match: letters beside the cases, where the numbers of characters would hide them
        match self {
            RecordKind::Admit => 'A',
            RecordKind::Open => 'O',
            RecordKind::Credit => 'C',
            RecordKind::Post => 'H',
            RecordKind::Buy => 'B',
            RecordKind::Sell => 'S',
            RecordKind::Withdraw => 'W',
            RecordKind::Trade => 'T',
            RecordKind::Debit => 'D',
        }
    }
}
