//! The chart of a run, and who waits in it: from the bytes of a journal to an SVG or to a text.
#![tactic(auto)]

mod calls;
mod columns;
mod laws;
mod lines;
mod marks;
mod rows;
mod shapes;
mod sheet;
mod traffic;
mod waiting;

pub use calls::{ChartFault, ROWS, chart, waits};
pub use laws::all_are_drawn;
pub use rows::{Choice, Deed, MessageName, Row, rows_of};
pub use shapes::{Shape, shapes_of};
