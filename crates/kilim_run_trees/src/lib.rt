//! Trees of objects, moved from heap to heap.
#![tactic(auto)]

mod fault;
mod laws;
mod put;
mod reserve;
mod room;
mod shapes;
mod standing;
mod take;
mod tree;

pub use fault::MoveFault;
pub use laws::sizes_agree;
pub use put::put_in;
pub use reserve::reserve_tree;
pub use room::Room;
pub use shapes::shape;
pub use standing::shape_at;
pub use take::take_out;
pub use tree::Tree;
