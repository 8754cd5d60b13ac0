//! Whether a class file has a text, tested by writing it and reading it again.
#![tactic(auto)]

mod bytes;
pub mod code_bytes;
mod fitting;
pub mod pool_needs;
mod pools;
mod same;
mod text;

pub use fitting::fits;
