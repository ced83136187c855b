//! Bytes written as text: two hex digits a byte, with blanks between them and remarks.
//!
//! A digit is 0 to 9, A to F or a to f. The two digits of a byte stand together. Blanks, tabs, carriage
//! returns and line feeds part bytes, or groups of them, and mean nothing else. From a # to the end of its
//! line stands a remark, in which any byte may stand. Whatever else stands in a text is a fault, and so is a
//! digit whose byte has no second one; a fault is told with its line.
#![tactic(auto)]

mod effect;
pub mod fault;
mod letters;
pub mod misspelling;
pub mod reading;
pub mod source_error;
mod standing;
#[cfg(test)]
mod tests;
pub mod writing;
