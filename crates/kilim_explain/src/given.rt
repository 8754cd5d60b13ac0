//! What was given: class files with their names, and where sources are looked for.

use kilim_class_file::ClassFile;

/// The class files that were given: those that can be read, each with the word that names its file, in their order; and where sources are
/// looked for.
#[derive(Clone, Copy)]
pub struct Given<'a> {
    pub names: &'a [String],
    pub files: &'a [ClassFile],
    /// The folder below which sources lie; none for the folders of the class files alone.
    pub below: Option<&'a str>,
}

/// Where a class's source may lie: beside the file of the class, or below a folder.
#[derive(Clone, Copy)]
pub struct Near<'a> {
    pub beside: &'a [u8],
    pub below: Option<&'a str>,
}

/// Where the source of the class at a place may lie.
pub fn near_of<'a>(given: Given<'a>, class: usize) -> Near<'a> {
    Near {
        below: given.below,
        beside: name_at(given, class),
    }
}

fn name_at<'a>(given: Given<'a>, class: usize) -> &'a [u8] {
    match given.names.get(class) {
        Some(name) => name.as_bytes(),
        None => &[],
    }
}
