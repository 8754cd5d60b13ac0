//! The outside of the program: files, standard output and the gate, as traits whose contracts say
//! what they told, what failed, and what a refusal leaves.
//!
//! The types in memory tell their contents, so a clause over told contents speaks of them. The types
//! for the real disk and terminal tell nothing but their faults: they are the trusted edge.
#![tactic(auto)]

mod folder;
mod gate;
mod limits;
mod memory_folder;
mod memory_sink;
mod real;
mod sink;
pub mod written;

pub use folder::{FailedCall, Folder, FolderFault};
pub use gate::{Gate, OpenGate};
pub use limits::file_limit;
pub use memory_folder::{NamedFile, SteadyFolder};
pub use memory_sink::SteadySink;
pub use real::{DiskFolder, OutSink};
pub use sink::{SinkFault, TextSink};
