//! The command line of a program: its words, and what the program says of itself where one word
//! alone asks for it.
//!
//! Layer 2. Stands on: `edge_traits`.
//! Promises: a notice is asked for exactly where its word stands alone; a text is printed whole, or
//! the status says that it was not.
#![tactic(auto)]

pub mod arguments;
pub mod notices;

pub use arguments::words;
pub use notices::{Notice, notice_of, print};
