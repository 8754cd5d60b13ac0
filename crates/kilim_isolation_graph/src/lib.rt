//! Shape graphs: which node each slot names, and what is known of the nodes.
#![tactic(auto)]

mod canonical;
mod entry;
mod graph;
mod node;
mod numbers;
mod order;
mod reversed;
mod slots;
mod types;

pub use entry::{Parameter, parameters_of, quality};
pub use graph::{Graph, slot_at};
pub use node::{Label, Node, Standing, node_at};
pub use reversed::turned;
pub use slots::Slots;
pub use types::type_at;
