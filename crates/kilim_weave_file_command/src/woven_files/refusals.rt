//! The lines of woven files that may get too large.

ghost use Rattle.std.specs.Prelude.{◌≡◌, ◌++◌, codes};
ghost use Rattle.std.specs.Fmt.{decimal};
ghost use Rattle.kilim_reports.specs.Names.{member_name_text};
ghost use Rattle.kilim_stages.specs.Parts.{Refused};
ghost use Rattle.kilim_weave_file_command.specs.woven_files.Reports.{IsSizeLine};

use crate::woven_files::lines::push_class_line;
use kilim_stages::Refusal;
use kilim_units::Units;
use kilim_weave_file::ApplyFault;
use std::alloc::Global;

// The line of a class and a number, with the word between them.
fn line_refusal(alloc: Global, class: &Units, word: &[u8], number: u64) -> Refusal
    ensures { Refused result (λ text. text ≡ codes "weave " ++ (member_name_text class.now ++ (word.now ++ (decimal number ++ codes "\n")))) }
{
    let mut text = Vec::new(alloc);
    match push_class_line(alloc, &mut text, b"weave ", class, word, number) {
        Ok(()) => Refusal::Report(text),
        Err(_) => Refusal::NoMemory,
    }
}

/// The line of a class whose woven file may get too large.
#[tactic(auto, unfolding(crate::specs::woven_files::Reports::pool_line, crate::specs::woven_files::Reports::file_line))]
pub fn size_refusal(alloc: Global, class: &Units, fault: ApplyFault) -> Refusal
    ensures { Refused result (IsSizeLine class.now fault) }
{
    match fault {
        ApplyFault::PoolFull(sum) => line_refusal(alloc, class, b" pool ", sum),
        ApplyFault::FileTooLarge(size) => line_refusal(alloc, class, b" file ", size),
        ApplyFault::Memory => Refusal::NoMemory,
    }
}
