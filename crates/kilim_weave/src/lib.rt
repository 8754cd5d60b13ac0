//! Programs that break no rule are woven, so that their calls can pause.
#![tactic(auto)]

mod fault;
mod faults;
mod weaving;

pub use fault::WeaveFault;
pub use weaving::{Woven, weave};
