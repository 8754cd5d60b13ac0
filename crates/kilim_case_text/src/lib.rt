//! What the tables of cases share: the text of an answer, and what a file holds that a case names.
#![tactic(auto)]

mod files;
pub mod run_tables;
mod text;

pub use files::{changed, read_file};
pub use text::Text;
