//! The image of a run that was stopped: its class files, what it was given, and its journal so far.
//!
//! An image holds no fiber: a task is determined by what it did, so whoever goes on replays the journal and trusts no bytes.
#![tactic(auto)]

mod course;
mod fault;
mod image;
mod limits;
mod reading;
mod writing;

pub use fault::{ImageFault, WriteFault};
pub use image::{Image, Run};
pub use reading::{images_are_spelled, one_image, read};
pub use writing::write;
