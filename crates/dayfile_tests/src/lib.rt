//! Tests of day files at their edges.
#![tactic(auto)]

#[cfg(test)]
mod collateral;
#[cfg(test)]
mod lengths;
#[cfg(test)]
mod outcomes;
#[cfg(test)]
mod records;
#[cfg(test)]
mod stores;
#[cfg(test)]
mod support;
