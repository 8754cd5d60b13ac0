//! Laws, and no work.

ghost use Rattle.kilim_weave_file_command.specs.woven_files.Laws.{NeverWovenAndReported, OwnPaths, StayBelow};

use kilim_class_file::class_file_is_spelled;
use kilim_link::links_keep;
use kilim_link_spec::{linked_in_parts, none_has_a_problem, none_of_each_kind};
use kilim_stages::one_program_of;
use kilim_stages::woven_stage::woven_is_not_reported;

/// A law, and no work: no files are both woven and reported.
pub fn never_woven_and_reported()
    ensures { NeverWovenAndReported }
{
    class_file_is_spelled();
    one_program_of();
    woven_is_not_reported();
}

/// A law, and no work: no two woven files have one path, whatever the directory.
#[tactic(auto, using(crate::proofs::woven_files::Paths::own_paths))]
pub fn woven_files_have_own_paths()
    ensures { OwnPaths }
{
    links_keep();
}

/// A law, and no work: each part of a woven file's name between slashes has a unit, and none is a point. So its path leads to no
/// place above the directory, nor to the directory itself.
pub fn woven_files_stay_below()
    ensures { StayBelow }
{
    linked_in_parts();
    none_has_a_problem();
    none_of_each_kind();
}
