//! Parts of bytes: what it means that one is spelled, cut or broken, and the laws of parts that are put together.
//!
//! `specs/Reader.antt` has readers and how they are put together, `specs/Spelling.antt` the text of numbers, and
//! `specs/Format.antt` says that a reader and a text belong together. The files of `proofs/` are a library of laws, as
//! those of std are: one for each way to put parts together makes the `Format` of the whole.
#![tactic(auto)]

mod numbers;
mod writing;

pub use numbers::{bytes_at, u8_at, u16_at, u32_at, u64_at};
pub use writing::{push_u8, push_u16, push_u32, push_u64};
