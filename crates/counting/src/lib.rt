//! A store that counts the changes of another, and what the engines of all levels do over it: from the
//! engine's own contracts alone, how many changes a call makes and which bytes of an image it leaves.
#![tactic(auto)]

pub mod counting;
pub mod full_calls;
pub mod full_images;
pub mod partial_calls;
pub mod pool_calls;
#[cfg(test)]
mod tests;
