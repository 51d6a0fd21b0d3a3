//! Lines, words and numbers of a text, as key files and configuration files have them (our own
//! rule).
//!
//! Layer 1. Stands on: nothing.
//! Promises: cursors that give the lines of a text and the words of a line, each in its order and
//! none left out; the number that a word spells, exactly; no memory is taken.
#![tactic(auto)]

pub mod lines;
pub mod numbers;
pub mod words;

pub use lines::Lines;
pub use numbers::{read_decimal, read_decimal_u64, read_decimal_within};
pub use words::Words;
