//! Reports for people: by the lines of the source, in terms of Java, with what to write instead.
#![tactic(auto)]

mod code;
mod explain;
mod finding;
mod given;
mod links;
mod methods;
mod paths;
mod placed;
mod sources;

pub use explain::explained;
pub use given::Given;
pub use sources::Sources;
