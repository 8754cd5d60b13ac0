//! The sign of life of a run on a terminal.
#![tactic(auto)]

mod cleared;
mod line;

pub use cleared::ClearedSink;
pub use line::AliveGate;
