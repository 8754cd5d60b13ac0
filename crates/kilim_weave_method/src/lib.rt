//! One woven method.
#![tactic(auto)]

mod copy;
mod find;
mod flags;
mod layout;
mod method;
mod size;
mod slots;
pub mod woven_each;

pub use copy::copy_method;
pub use find::{nowhere, places_of};
pub use layout::{Laid, lay};
pub use method::{Slots, woven};
pub use slots::argument_slots;
