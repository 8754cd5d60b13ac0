//! What the classes of a program inherit, key by key, found in at most as many steps as the greatest key has binary digits.
//!
//! Each class's tree of keys is its superclass's tree with its own entries put onto it: old trees stay, and what is
//! equal is shared. So a look-up takes no longer where the line of superclasses is long.
#![tactic(auto)]

mod class_trees;
mod entries;
mod entry;
mod index;
mod inherited;
mod lookup;
mod nearest;
mod node;
mod numbers;
mod order;
mod put;
mod said;
mod signature;

pub use entry::Entry;
pub use index::Index;
pub use inherited::Inherited;
pub use nearest::Nearest;
pub use numbers::Numbers;
pub use said::Said;
pub use signature::Signature;
