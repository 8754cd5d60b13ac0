//! Laws of the class files.

ghost use Rattle.kilim_demo.specs.Laws.{DemoFits, DemoIsShort};

use kilim_class_file::class_file_is_spelled;

/// A law, and no work: the class files of the demo of every number have texts, so they can be written and are read again; there
/// are at most 17.
pub fn demo_fits()
    ensures fits { DemoFits }
    ensures short { DemoIsShort }
{
    class_file_is_spelled();
}
