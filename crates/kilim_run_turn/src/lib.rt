//! The lending turn: one value that several workers take by turns, and the one place where threads share anything.
//!
//! `Turn::open` puts a value away and gives one pass for each of its seats. A worker lends the value by `enter`,
//! changes its own seat's cell, and gives the value back by `leave`. `close` takes all passes and hands the value out
//! again. What a pass shows of its seat's cell is what stands in the value, though others had the turn meanwhile.
//! docs/TURN.md tells the rule that makes this so.
#![tactic(auto)]

mod cells;
mod closing;
mod entering;
mod held;
mod kept;
mod leaving;
mod lending;
mod opening;
mod pass;
mod plays;
mod steps;
mod view;

pub use cells::Cells;
pub use held::Held;
pub use lending::Turn;
pub use pass::Pass;
