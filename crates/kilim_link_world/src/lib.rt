//! The world of some class files: their classes and the built-in ones, with names looked up in ordered maps.
#![tactic(auto)]

mod facts;
mod ids;
mod keys;
mod kinds;
mod lineages;
mod lines;
mod marks;
mod members;
mod nearest;
mod outline;
mod outlining;
mod parts;
mod search;
mod tasks;
pub mod types;
mod views;
mod world;

pub use ids::Ids;
pub use kilim_link_inherited::{Index, Signature};
pub use outline::Outline;
pub use world::World;
