//! The type verifier (JVMS 4.10.1): whether each method with code is well typed, the frame at each place, or the first fault.
#![tactic(auto)]

mod entry;
mod flows;
mod frames;
mod handlers;
mod place;
mod programs;
mod stated;
mod walk;

pub use programs::{TypeFault, verify};
