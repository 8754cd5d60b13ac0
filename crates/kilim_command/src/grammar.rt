//! The words of the command line.

mod asked;
mod images;
mod numbers;
mod options;

pub use asked::{
    Asked, DemoWords, ReplayWords, ResumeWords, RunWords, SaveWords, WeaveWords, integers, request,
};
