//! The main sentence of a run, as a contract of its own.

ghost use Rattle.std.specs.Prelude.{map};
ghost use Rattle.std.specs.String.{string_bytes};
ghost use Rattle.kilim_outside.specs.Files.{files_of};
ghost use Rattle.kilim_command.specs.grammar.Words.{request_of};
ghost use Rattle.kilim_headline.specs.Headline.{EndsWell, IsMade};

use kilim_outside::{Gate, SteadyFolder, SteadySink};
use kilim_top::kilim_in_memory;
use std::alloc::Global;

/// Does what the words ask for, over files and a sink in memory: it is `kilim_in_memory`. Its contract is the main sentence of a run,
/// written out anew (specs/Headline.antt), so what the top call promises can't become less than that.
pub fn headline<G: Gate>(
    alloc: Global,
    words: &Vec<String>,
    files: &mut SteadyFolder,
    out: &mut SteadySink,
    gate: &G,
) -> Option<u8>
    ensures ends { EndsWell (request_of (map string_bytes words.now.items)) (files_of files.old.files) out.old.bytes out.new.bytes result }
    ensures made { IsMade (request_of (map string_bytes words.now.items)) (files_of files.old.files) result }
{
    kilim_in_memory(alloc, words, files, out, gate)
}
