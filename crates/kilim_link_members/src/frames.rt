//! The declared frames of methods, linked: by slots, each with its place.

mod begin;
mod entries;
mod frames;
mod slots;

pub use frames::frames_in;
