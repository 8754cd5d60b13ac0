//! Folders in memory, which tell what they hold.

ghost use Rattle.std.specs.Prelude.{◌≡◌, ◌∷◌, ◌++◌, [], Some, take, IfOk, OnOk, OnErr};
ghost use Rattle.std.specs.Prelude.{find, nat_eq};
ghost use Rattle.std.specs.Cmp.Lexicographic.{pointwise};
ghost use Rattle.std.specs.Option.{option_copied};
ghost use Rattle.kilim_outside.specs.Files.{files_of, file_limit, content_of};

use crate::folder::{Folder, FolderFault};
use crate::limits::file_limit;
use kilim_units::Seq;
use std::alloc::{AllocError, Global};

/// A file in memory: its name and its content, both as bytes.
#[derive(Drop)]
pub struct NamedFile {
    pub name: Seq<u8>,
    pub bytes: Seq<u8>,
}

// The first file of that name.
fn first_named<'a>(files: &'a [NamedFile], name: &[u8]) -> Option<&'a NamedFile>
    ensures { option_copied result ≡ find (λ file. pointwise nat_eq name.now file.name) files.now }
{
    for file in files {
        if name == file.name.as_slice() {
            return Some(file);
        }
    }
    None
}

// The content of the first file of that name.
#[tactic(auto, using(crate::proofs::FileLemmas::content_some, crate::proofs::FileLemmas::content_none))]
fn content<'a>(files: &'a [NamedFile], name: &[u8]) -> &'a [u8]
    ensures { result.now ≡ content_of (files_of files.now) name.now }
{
    match first_named(files, name) {
        Some(file) => file.bytes.as_slice(),
        None => &[],
    }
}

// At most that many bytes of the front.
fn front(bytes: &[u8], most: usize) -> &[u8]
    ensures { result.now ≡ take most bytes.now }
{
    if bytes.len() > most {
        &bytes[..most]
    } else {
        bytes
    }
}

// Appends what a file holds, up to the limit.
fn append_content(files: &[NamedFile], name: &[u8], into: &mut Vec<u8>) -> Result<(), AllocError>
    ensures ok { OnOk result (into.new.items ≡ into.old.items ++ take file_limit (content_of (files_of files.now) name.now)) }
    ensures err { OnErr result (into.new.items ≡ into.old.items) }
{
    into.extend_from_slice(front(content(files, name), file_limit()))
}

// A copy of a file.
fn named_file(alloc: Global, name: &[u8], bytes: &[u8]) -> Result<NamedFile, AllocError>
    ensures { IfOk result (λ file. file ≡ record { name = name.now; bytes = bytes.now }) }
{
    let Ok(name) = Vec::from_slice(alloc, name) else {
        return Err(AllocError);
    };
    let Ok(bytes) = Vec::from_slice(alloc, bytes) else {
        return Err(AllocError);
    };
    Ok(NamedFile {
        name: Seq::from_vec(name),
        bytes: Seq::from_vec(bytes),
    })
}

// A copy of the file in front of the others: of one name the first counts.
fn put_file(files: &mut Seq<NamedFile>, name: &[u8], bytes: &[u8]) -> Result<(), AllocError>
    ensures ok { OnOk result (files.new ≡ record { name = name.now; bytes = bytes.now } ∷ files.old) }
    ensures err { OnErr result (files.new ≡ files.old) }
{
    let Ok(file) = named_file(*files.items.allocator(), name, bytes) else {
        return Err(AllocError);
    };
    match files.items.insert(0, file) {
        Ok(()) => Ok(()),
        Err(_) => Err(AllocError),
    }
}

/// A folder in memory in which no call fails but for want of memory: a name that wasn't given is an
/// empty file. Its list of failed calls is always empty.
#[derive(Drop)]
pub struct SteadyFolder {
    /// The files; of one name the first counts. A file that is written again stands in front.
    pub files: Seq<NamedFile>,
}

impl Folder for SteadyFolder {
    ghost contents = { λ folder. Some (files_of folder.files) };

    ghost faults = { λ _. [] };

    fn read(&mut self, name: &str, into: &mut Vec<u8>) -> Result<(), FolderFault> {
        match append_content(self.files.as_slice(), name.as_bytes(), into) {
            Ok(()) => Ok(()),
            Err(_) => Err(FolderFault::NoMemory),
        }
    }

    #[tactic(auto, using(crate::proofs::FileLemmas::get_put, crate::proofs::FileLemmas::get_other))]
    fn write(&mut self, name: &str, bytes: &[u8]) -> Result<(), FolderFault> {
        match put_file(&mut self.files, name.as_bytes(), bytes) {
            Ok(()) => Ok(()),
            Err(_) => Err(FolderFault::NoMemory),
        }
    }
}
