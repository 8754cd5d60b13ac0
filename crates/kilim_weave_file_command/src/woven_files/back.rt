//! Woven class files are linked again.

ghost use Rattle.std.specs.Prelude.{◌≡◌, ◌≤◌, true, Ok, length};
ghost use Rattle.std.specs.List.{AllByRecursion};
ghost use Rattle.kilim_class_file.specs.Text.{ClassFits};
ghost use Rattle.kilim_weave_file_command.specs.woven_files.Parts.{LinksBack};

use kilim_class_file::ClassFile;
use kilim_link::link;
use kilim_link_spec::LinkFault;
use kilim_program::{Form, Program};
use kilim_weave_file_sizes::same_programs::same_programs;
use std::alloc::Global;

// Whether class files linked, to this program.
fn linked_to(linked: &Result<Program, LinkFault>, program: &Program) -> bool
    ensures { result ≡ true → linked.now ≡ Ok program.now }
{
    match linked {
        Ok(again) => same_programs(again, program),
        Err(_) => false,
    }
}

/// Whether class files in woven form link to this program. Where memory is short, the answer is no.
pub fn links_back(alloc: Global, files: &[ClassFile], program: &Program) -> bool
    requires few { length files.now ≤ 1000 }
    requires fit { AllByRecursion ClassFits files.now }
    ensures { result ≡ true → LinksBack files.now program.now }
{
    let linked = link(alloc, files, Form::Woven);
    let is_same = linked_to(&linked, program);
    drop(linked);
    is_same
}
