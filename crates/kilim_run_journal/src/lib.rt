//! The journal of a run: its entries, and its text.
#![tactic(auto)]

mod acts;
mod entry;
mod fits;
mod lines;
mod numbers;
mod pieces;
mod read;
mod values;

pub use entry::{Act, Entry};
pub use fits::journal_fits;
pub use lines::{shapes_are_values, text, texts_differ, values_are_joined};
pub use read::{TextFault, read_text};
