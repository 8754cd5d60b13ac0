//! Classes as they are declared: those of files, and the built-in ones.
#![tactic(auto)]

mod built_in;
pub mod built_ins;
mod file;
mod marks;
mod members;
mod names;

pub use built_in::{built_in_views, method_descriptor};
pub use file::view_of_file;
pub use marks::params_in;
pub use members::{declared_method, is_pausable};
pub use names::{
    class_text, has_flag, is_any_named, is_text, member_descriptor, member_name, own_name,
    super_name, text_of,
};
