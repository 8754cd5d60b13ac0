//! A list of files is written into a folder, one after the other.

mod output_file;
mod writing;

pub use output_file::OutputFile;
pub use writing::write_files;
