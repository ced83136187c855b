//! The text of obligations, beside those that the tally noted.

use crate::owed::Owed;
use crate::printed_obligation::PrintedObligation;
use crate::printed_standing::PrintedStanding;
use crate::tally::Tally;
use partial::obligation::Obligation;
use partial::obligations::Obligations;
use std::io;

/// The obligation that stands under a trade's number.
fn standing_under(obligations: &Obligations, number: u32) -> Option<Obligation> {
    let place = obligations.place_of(number)?;
    *obligations.table.get(place)?
}

fn count(obligations: &Obligations) -> usize {
    obligations
        .table
        .iter()
        .filter(|place| place.is_some())
        .count()
}

fn show_obligation(rt: &HostRuntime, obligations: &Obligations, noted: Owed) -> io::Result<()> {
    let number = noted.obligation.number;
    let standing = standing_under(obligations, number);
    let verdict = if standing == noted.left() && noted.is_settled_once() {
        "they agree"
    } else {
        "they differ"
    };
    println!(rt;
        "obligation {number}: {}; noted: {}, delivered {}, paid {}; {verdict}",
        PrintedStanding(standing),
        PrintedObligation(noted.obligation),
        noted.delivered,
        noted.paid
    )
}

/// Prints each noted obligation beside what stands under its number, and how many stand and were noted with a leg that
/// was not settled: where all agree and as many stand as were so noted, no other stands.
pub(crate) fn show_obligations(
    rt: &HostRuntime,
    tally: &Tally,
    obligations: &Obligations,
) -> io::Result<()> {
    for (_, noted) in tally.obligations.iter().flatten() {
        show_obligation(rt, obligations, *noted)?;
    }
    let standing = count(obligations);
    let noted = tally
        .obligations
        .iter()
        .flatten()
        .filter(|(_, noted)| noted.left().is_some())
        .count();
    println!(rt; "obligations: standing {standing}, noted {noted}")
}
