//! Files by their names.

ghost use Rattle.std.specs.Prelude.{◌≡◌, ◌⊎◌, ◌∷◌, ◌++◌, List, ℕ, [], Option, OnOk, IfOk};
ghost use Rattle.std.specs.Io.{StartsWith};
ghost use Rattle.kilim_outside.specs.Files.{Files, ReadsFile, KeepsOthers, HasFile};
ghost use Rattle.kilim_outside.specs.Causes.{FolderCause};
ghost use Rattle.kilim_outside.specs.declared.folder.FailedCall.{FailedCall};
ghost use Rattle.kilim_outside.specs.declared.folder.FailedCall.TheVariants.{Read, Write};

use kilim_units::Seq;
use std::alloc::{AllocError, AllocFailed, Global};

/// Why a folder didn't read or write.
#[derive(Clone, Copy)]
pub enum FolderFault {
    /// The file isn't there, or can't be read or written.
    Failed,
    /// Want of memory.
    NoMemory,
}

impl From<AllocError> for FolderFault {
    ghost use Rattle.kilim_outside.specs.declared.folder.FolderFault.TheVariants as folder;

    ghost from_gives = { λ _ e. e ≡ folder.NoMemory };

    fn from(_: AllocError) -> FolderFault {
        FolderFault::NoMemory
    }
}

impl<T: Drop> From<AllocFailed<T>> for FolderFault {
    ghost use Rattle.kilim_outside.specs.declared.folder.FolderFault.TheVariants as folder;

    ghost from_gives = { λ _ e. e ≡ folder.NoMemory };

    fn from(_: AllocFailed<T>) -> FolderFault {
        FolderFault::NoMemory
    }
}

/// A call of a folder that failed, with the name that it was given, as its bytes.
#[derive(Drop)]
pub enum FailedCall {
    /// A call of `read`.
    Read(Seq<u8>),
    /// A call of `write`.
    Write(Seq<u8>),
}

// A copy of a name.
fn copy_of(alloc: Global, name: &str) -> Result<Seq<u8>, AllocError>
    ensures { IfOk result (λ copy. copy ≡ name.now) }
{
    match Vec::from_slice(alloc, name.as_bytes()) {
        Ok(bytes) => Ok(Seq::from_vec(bytes)),
        Err(_) => Err(AllocError),
    }
}

// The fault of a call that fails, which is noted; for want of memory it isn't.
fn refusal(faults: &mut Seq<FailedCall>, call: FailedCall) -> FolderFault
    ensures own { (faults.new ≡ faults.old) ⊎ (faults.new ≡ faults.old ++ call ∷ []) }
    ensures failed { result ≡ FolderFault.Failed → faults.new ≡ faults.old ++ call ∷ [] }
{
    match faults.push(call) {
        Ok(()) => FolderFault::Failed,
        Err(_) => FolderFault::NoMemory,
    }
}

/// The fault of a read that fails, which is noted; for want of memory it isn't.
pub(crate) fn read_refusal(faults: &mut Seq<FailedCall>, name: &str) -> FolderFault
    ensures own { (faults.new ≡ faults.old) ⊎ (faults.new ≡ faults.old ++ Read name.now ∷ []) }
    ensures failed { result ≡ FolderFault.Failed → faults.new ≡ faults.old ++ Read name.now ∷ [] }
{
    match copy_of(*faults.items.allocator(), name) {
        Ok(copy) => refusal(faults, FailedCall::Read(copy)),
        Err(_) => FolderFault::NoMemory,
    }
}

/// The same of a write.
pub(crate) fn write_refusal(faults: &mut Seq<FailedCall>, name: &str) -> FolderFault
    ensures own { (faults.new ≡ faults.old) ⊎ (faults.new ≡ faults.old ++ Write name.now ∷ []) }
    ensures failed { result ≡ FolderFault.Failed → faults.new ≡ faults.old ++ Write name.now ∷ [] }
{
    match copy_of(*faults.items.allocator(), name) {
        Ok(copy) => refusal(faults, FailedCall::Write(copy)),
        Err(_) => FolderFault::NoMemory,
    }
}

/// Files that can be read and written by their names.
///
/// Contracts see what it holds, where it tells that, and the list of its failed calls.
pub trait Folder {
    /// What it holds, where it tells that.
    ghost contents: { Self → Option Files };
    /// Its calls that failed, the last one last.
    ghost faults: { Self → List FailedCall };

    /// Appends the first 16,777,217 bytes of a file, or all of it, to `into`. A name that isn't there is
    /// a fault, or counts as an empty file.
    ///
    /// After a refusal `into` has what it had and some further bytes. No content changes.
    fn read(&mut self, name: &str, into: &mut Vec<u8>) -> Result<(), FolderFault>
        ensures bytes { OnOk result (ReadsFile (contents self.old) name.now into.old.items into.new.items) }
        ensures front { StartsWith into.new.items into.old.items }
        ensures contents { contents self.new ≡ contents self.old }
        ensures cause { FolderCause (Read name.now) (faults self.old) (faults self.new) result };

    /// Makes a file of that name with these bytes, in place of one that is there.
    ///
    /// After a refusal that file's content is open. No other file changes.
    fn write(&mut self, name: &str, bytes: &[u8]) -> Result<(), FolderFault>
        ensures file { OnOk result (HasFile (contents self.new) name.now bytes.now) }
        ensures others { KeepsOthers (contents self.old) (contents self.new) name.now }
        ensures cause { FolderCause (Write name.now) (faults self.old) (faults self.new) result };
}
