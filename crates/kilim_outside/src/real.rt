//! The real disk and standard output: the trusted edge. They tell nothing but their faults.

ghost use Rattle.std.specs.Prelude.{◌≡◌, [], None};
ghost use Rattle.std.specs.Io.{StartsWith};

use crate::folder::{FailedCall, Folder, FolderFault, read_refusal, write_refusal};
use crate::limits::file_limit;
use crate::sink::{SinkFault, TextSink, faults_behind};
use kilim_units::Seq;
use std::alloc::Global;
use std::fs::File;
use std::io::{Read, Write};
use std::path::Path;
use std::rt::Files;
use std::{fs, io};

/// The files of the disk. A relative name begins at the folder in which the program runs.
#[derive(Drop)]
pub struct DiskFolder<'a, R: Files> {
    rt: &'a R,
    faults: Seq<FailedCall>,
}

impl<'a, R: Files> DiskFolder<'a, R> {
    /// The files of the disk; no call has failed yet.
    pub fn new(rt: &'a R, alloc: Global) -> Self
        ensures { ⟦<DiskFolder<'a, R> as Folder>⟧.faults result ≡ [] }
    {
        DiskFolder {
            rt,
            faults: Seq::new(alloc),
        }
    }
}

// Appends a file's bytes, up to the limit.
fn read_file<R: Files>(rt: &R, name: &str, into: &mut Vec<u8>) -> io::Result<()>
    ensures { StartsWith into.new.items into.old.items }
{
    let mut file = File::open(rt, name)?.take(file_limit() as u64);
    file.read_to_end(into)?;
    Ok(())
}

// Makes the folders of a name, and the file.
fn write_file<R: Files>(rt: &R, name: &str, bytes: &[u8]) -> io::Result<()> {
    if let Some(folder) = Path::new(name).parent() {
        if !folder.as_str().is_empty() {
            fs::create_dir_all(rt, folder)?;
        }
    }
    fs::write(rt, name, bytes)
}

impl<R: Files> Folder for DiskFolder<'_, R> {
    ghost contents = { λ _. None };

    ghost faults = { λ folder. folder.faults };

    fn read(&mut self, name: &str, into: &mut Vec<u8>) -> Result<(), FolderFault> {
        match read_file(self.rt, name, into) {
            Ok(()) => Ok(()),
            Err(_) => Err(read_refusal(&mut self.faults, name)),
        }
    }

    fn write(&mut self, name: &str, bytes: &[u8]) -> Result<(), FolderFault> {
        match write_file(self.rt, name, bytes) {
            Ok(()) => Ok(()),
            Err(_) => Err(write_refusal(&mut self.faults, name)),
        }
    }
}

/// Standard output.
#[derive(Drop)]
pub struct OutSink<'a, R: Print> {
    rt: &'a R,
    faults: u64,
}

impl<'a, R: Print> OutSink<'a, R> {
    /// Standard output; no call has failed yet.
    pub fn new(rt: &'a R) -> Self
        ensures { ⟦<OutSink<'a, R> as TextSink>⟧.faults result ≡ 0 }
    {
        OutSink { rt, faults: 0 }
    }
}

impl<R: Print> TextSink for OutSink<'_, R> {
    ghost written = { λ _. None };

    ghost faults = { λ sink. sink.faults };

    fn write(&mut self, piece: &[u8]) -> Result<usize, SinkFault> {
        match io::writer(self.rt).write(piece) {
            Ok(count) => {
                self.faults = faults_behind(self.faults, count, piece);
                Ok(count)
            }
            Err(_) => {
                self.faults = self.faults.saturating_add(1);
                Err(SinkFault::Failed)
            }
        }
    }
}
