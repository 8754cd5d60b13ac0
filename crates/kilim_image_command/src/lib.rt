//! The commands `save` and `resume`: a run is stopped and becomes an image, and goes on from its image.
#![tactic(auto)]

mod images;
mod laws;
mod lines;
mod programs;
mod resuming;
mod saving;

pub use laws::{
    never_begun_and_reported, never_gone_on_and_reported, never_saved_and_reported, woven_is_served,
};
pub use resuming::{Stopped, resume_run, resume_run_alone, stopped_run};
pub use saving::{Saved, save_files};
