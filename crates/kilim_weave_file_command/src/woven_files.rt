//! From the bytes of class files to the woven class files, or to the report of the first stage that has a fault.

mod applied;
mod back;
mod laws;
mod lines;
mod made;
mod outputs;
mod places;
mod refusals;
mod stage;
mod text;

pub use kilim_stages::Refusal;
pub use laws::{never_woven_and_reported, woven_files_have_own_paths, woven_files_stay_below};
pub use lines::wove_lines;
pub use made::WovenFile;
pub use stage::woven_files;
pub use text::path_of;
