//! Texts that are put together of pieces, and words in lines.
#![tactic(auto)]

mod pieces;
mod words;

pub use pieces::{Piece, push};
pub use words::{behind, between, front, word};
