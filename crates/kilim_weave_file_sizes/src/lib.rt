//! How large a woven class file may become, by the bounds of specs/file_laws/form.
#![tactic(auto)]

mod calls;
pub mod same_programs;
mod sizes;
mod texts;

pub use calls::is_pausable_call;
pub use sizes::{added_entries, longest_text, methods_bytes, plus, size_by};
pub use texts::{needed_method, type_descriptor, type_name, woven_descriptor};
