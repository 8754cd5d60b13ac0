//! A folder in memory whose calls fail as a case asks.

ghost use Rattle.std.specs.Prelude.{◌≡◌, ◌⊎◌, ◌∷◌, ◌++◌, [], None, IfOk};
ghost use Rattle.kilim_outside.specs.declared.folder.FailedCall.TheVariants.{Read, Write};

use kilim_outside::{FailedCall, Folder, FolderFault, NamedFile, file_limit};
use kilim_units::Seq;
use std::alloc::{AllocError, Global};

/// The files of a case. A name that isn't there is a fault.
#[derive(Drop)]
pub struct MapFolder {
    /// The files; of one name the first counts. A file that is written again stands in front.
    pub files: Seq<NamedFile>,
    /// The calls that failed, the last one last.
    pub faults: Seq<FailedCall>,
    /// How many calls were made.
    pub calls: u64,
    /// The numbers of the calls that fail, counted from 0.
    pub fails: Seq<u64>,
}

// The first file of that name.
fn first_named<'a>(files: &'a [NamedFile], name: &[u8]) -> Option<&'a NamedFile> {
    for file in files {
        if name == file.name.as_slice() {
            return Some(file);
        }
    }
    None
}

// The content of the first file of that name, up to the limit of a folder.
fn content<'a>(files: &'a [NamedFile], name: &[u8]) -> &'a [u8] {
    match first_named(files, name) {
        Some(file) => {
            let bytes = file.bytes.as_slice();
            &bytes[..bytes.len().min(file_limit())]
        }
        None => &[],
    }
}

impl MapFolder {
    // Counts a call, and says whether it is one that fails.
    fn fails_now(&mut self) -> bool
        ensures { self.new.faults ≡ self.old.faults }
    {
        let number = self.calls;
        self.calls = number.saturating_add(1);
        self.fails.as_slice().contains(&number)
    }

    // Counts a call, and says whether it can read that file.
    fn can_read(&mut self, name: &str) -> bool
        ensures { self.new.faults ≡ self.old.faults }
    {
        if self.fails_now() {
            return false;
        }
        first_named(self.files.as_slice(), name.as_bytes()).is_some()
    }
}

// A copy of bytes.
fn copy_of(alloc: Global, bytes: &[u8]) -> Result<Seq<u8>, AllocError>
    ensures { IfOk result (λ copy. copy ≡ bytes.now) }
{
    Ok(Seq::from_vec(Vec::from_slice(alloc, bytes)?))
}

// A copy of the file in front of the others.
fn put_file(files: &mut Seq<NamedFile>, name: &[u8], bytes: &[u8]) -> Result<(), AllocError> {
    let alloc = *files.items.allocator();
    let name = copy_of(alloc, name)?;
    let bytes = copy_of(alloc, bytes)?;
    match files.items.insert(0, NamedFile { name, bytes }) {
        Ok(()) => Ok(()),
        Err(_) => Err(AllocError),
    }
}

// The fault of a call that fails, which is noted; for want of memory it isn't.
fn refusal(faults: &mut Seq<FailedCall>, call: FailedCall) -> FolderFault
    ensures own { (faults.new ≡ faults.old) ⊎ (faults.new ≡ faults.old ++ call ∷ []) }
    ensures failed { result ≡ FolderFault.Failed → faults.new ≡ faults.old ++ call ∷ [] }
{
    match faults.push(call) {
        Ok(()) => FolderFault::Failed,
        Err(_) => FolderFault::NoMemory,
    }
}

// The fault of a read that fails, which is noted; for want of memory it isn't.
fn read_refusal(faults: &mut Seq<FailedCall>, name: &str) -> FolderFault
    ensures own { (faults.new ≡ faults.old) ⊎ (faults.new ≡ faults.old ++ Read name.now ∷ []) }
    ensures failed { result ≡ FolderFault.Failed → faults.new ≡ faults.old ++ Read name.now ∷ [] }
{
    match copy_of(*faults.items.allocator(), name.as_bytes()) {
        Ok(copy) => refusal(faults, FailedCall::Read(copy)),
        Err(_) => FolderFault::NoMemory,
    }
}

// The same of a write.
fn write_refusal(faults: &mut Seq<FailedCall>, name: &str) -> FolderFault
    ensures own { (faults.new ≡ faults.old) ⊎ (faults.new ≡ faults.old ++ Write name.now ∷ []) }
    ensures failed { result ≡ FolderFault.Failed → faults.new ≡ faults.old ++ Write name.now ∷ [] }
{
    match copy_of(*faults.items.allocator(), name.as_bytes()) {
        Ok(copy) => refusal(faults, FailedCall::Write(copy)),
        Err(_) => FolderFault::NoMemory,
    }
}

impl Folder for MapFolder {
    ghost contents = { λ _. None };

    ghost faults = { λ folder. folder.faults };

    fn read(&mut self, name: &str, into: &mut Vec<u8>) -> Result<(), FolderFault> {
        if !self.can_read(name) {
            return Err(read_refusal(&mut self.faults, name));
        }
        match into.extend_from_slice(content(self.files.as_slice(), name.as_bytes())) {
            Ok(()) => Ok(()),
            Err(_) => Err(FolderFault::NoMemory),
        }
    }

    fn write(&mut self, name: &str, bytes: &[u8]) -> Result<(), FolderFault> {
        if self.fails_now() {
            return Err(write_refusal(&mut self.faults, name));
        }
        match put_file(&mut self.files, name.as_bytes(), bytes) {
            Ok(()) => Ok(()),
            Err(_) => Err(FolderFault::NoMemory),
        }
    }
}
