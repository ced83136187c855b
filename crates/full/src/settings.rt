//! The settings of an engine.

/// What an engine is set up with, and keeps.
#[derive(Clone, Copy, PartialEq, Eq, Debug)]
pub struct Settings {
    /// The reserve balance in kopecks, which purchases announced with full collateral leave on each cash register.
    pub reserve: u16,
}
