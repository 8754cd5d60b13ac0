//! Files are written in order.

ghost use Rattle.std.specs.Prelude.{◌≡◌, [], OnOk, IfErr};
ghost use Rattle.kilim_outside.specs.Causes.{FolderCause};
ghost use Rattle.kilim_outside.specs.Files.{HasFile, KeepsOthers};
ghost use Rattle.kilim_outside.specs.declared.folder.FailedCall.TheVariants.{Write};
ghost use Rattle.kilim_outside.specs.written.Written.{HasFailed, HaveOwnPaths, StoppedAtFile, WroteFiles};

use crate::written::output_file::OutputFile;
use crate::{Folder, FolderFault};

fn write_one<F: Folder>(folder: &mut F, file: &OutputFile) -> Result<(), FolderFault>
    ensures file { OnOk result (HasFile (F.contents folder.new) file.now.path file.now.bytes) }
    ensures others { KeepsOthers (F.contents folder.old) (F.contents folder.new) file.now.path }
    ensures cause { FolderCause (Write file.now.path) (F.faults folder.old) (F.faults folder.new) result }
{
    folder.write(file.path.as_str(), file.bytes.as_slice())
}

/// Writes the files in their order, up to the first that can't be written.
///
/// After a refusal those before that one are there with their bytes, and its own content is open. No other file changes. `Failed`
/// comes only where the folder noted the write of that one.
pub fn write_files<F: Folder>(folder: &mut F, files: &[OutputFile]) -> Result<(), FolderFault>
    requires { HaveOwnPaths files.now }
    ensures none { files.now ≡ [] → F.contents folder.new ≡ F.contents folder.old }
    ensures all { OnOk result (WroteFiles files.now (F.contents folder.old) (F.contents folder.new)) }
    ensures quiet { OnOk result (F.faults folder.new ≡ F.faults folder.old) }
    ensures stopped { IfErr result (λ fault. (stopped : StoppedAtFile files.now (F.contents folder.old) (F.contents folder.new) (F.faults folder.old) (F.faults folder.new)) × (fault ≡ FolderFault.Failed → HasFailed files.now (F.contents folder.old) (F.contents folder.new) (F.faults folder.old) (F.faults folder.new) stopped)) }
{
    for file in files {
        match write_one(folder, file) {
            Ok(()) => {}
            Err(fault) => return Err(fault),
        }
    }
    Ok(())
}
