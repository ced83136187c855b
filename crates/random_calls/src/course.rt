//! Courses of runs.

use crate::shape::Shape;

/// A shape, how many calls a run of it has, and after how many of them notes are spoilt, if they are.
#[derive(Clone, Copy)]
pub struct Course {
    pub shape: Shape,
    pub length: u64,
    pub spoil_after: Option<u64>,
}
