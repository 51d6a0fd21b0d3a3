//! The first refused place of a text, whatever its grammar, read at once or line by line: the words,
//! and the laws on them.
//!
//! Layer 1. Stands on: nothing.
//! Promises: a text is refused at one place at most, and at none where it means something; what a
//! reader of one symbol after another, or of one line after another, stops at is refused exactly
//! there.
#![tactic(auto)]
