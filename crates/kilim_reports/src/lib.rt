//! The lines of reports. Each is a line of its own, with its line feed.
#![tactic(auto)]

mod class_lines;
mod lines;
mod link_lines;
mod names;
mod texts;

pub use class_lines::class_line;
pub use kilim_link_views::method_descriptor;
pub use lines::{fault_lines, push_number, type_line, words_of};
pub use link_lines::link_line;
pub use names::{descriptor_text, member_name_text};
pub use texts::joined;
