//! The calls of pausable methods, and the rules that they keep: no pausable method has a free receiver, only pausable methods
//! call pausable ones, and nothing is uninitialized across such a call.
#![tactic(auto)]

mod call;
mod pausing;
mod report;

pub use call::called_by;
pub use pausing::{
    FREE_RECEIVER, GraphFault, PAUSABLE_IN_PLAIN, Pausables, UNINIT_ACROSS_PAUSE, graph,
    method_reports, pausable_calls, pausing_reports,
};
pub use report::Report;
