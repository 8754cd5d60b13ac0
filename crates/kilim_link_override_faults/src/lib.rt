//! The faults of linking that lie in methods with those of superclasses.
#![tactic(auto)]

mod abstracts;
mod ancestry;
mod apart;
mod heritage;
mod overrides;
mod signature;

pub use abstracts::abstract_left;
pub use ancestry::Ancestry;
pub use overrides::override_differs;
pub use signature::signature_of;
