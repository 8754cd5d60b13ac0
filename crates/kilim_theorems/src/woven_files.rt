//! A woven class file is read back to the woven program: laws, and no code that does work.

pub mod form;
pub mod pool;

ghost use Rattle.kilim_theorems.specs.woven_files.Descriptors.{DescriptorsApart};
ghost use Rattle.kilim_theorems.specs.woven_files.Laws.{CodeIsReadBack, FramesAreReadBack, MethodsLinkAgain, ParametersAreMore, PlainMethodsAreFound};
ghost use Rattle.kilim_theorems.specs.woven_files.Views.{BuiltInsStay, ClassesAreFound, FieldsAreFound, MembersStay, ViewsJoin, ViewsStay};

use kilim_link_spec::decoded_is_decode;

/// A law, and no work: no two descriptors get one with the fiber, and none in plain form has it.
pub fn descriptors_are_apart()
    ensures { DescriptorsApart }
{}

/// A law, and no work: what a class shows of itself is the same in woven form, but for the descriptors of the methods that pause.
pub fn views_stay()
    ensures { ViewsStay }
{}

/// A law, and no work: the built-in classes show the same in woven form, but for the fiber.
pub fn built_ins_stay()
    ensures { BuiltInsStay }
{}

/// A law, and no work: lists of classes that show the same can be put together.
pub fn views_join()
    ensures { ViewsJoin }
{}

/// A law, and no work: a class is found where it was.
pub fn classes_are_found()
    ensures { ClassesAreFound }
{}

/// A law, and no work: where each class shows the same, its members keep their numbers, and the methods are the same but for the fiber.
pub fn members_stay()
    ensures { MembersStay }
{}

/// A law, and no work: and a field is found where it was.
pub fn fields_are_found()
    ensures { FieldsAreFound }
{}

/// A law, and no work: a method is found in woven form where it was found before, with the fiber where it pauses.
pub fn methods_are_found()
    ensures { PlainMethodsAreFound }
{}

/// A law, and no work: woven code that was written is, in the woven world, the code of the woven method.
pub fn code_is_read_back()
    ensures { CodeIsReadBack }
{}

/// A law, and no work: frames that were written in the full form are those that were declared.
pub fn frames_are_read_back()
    ensures { FramesAreReadBack }
{}

/// A law, and no work: a method that pauses, written anew, links in woven form to the method of the woven program.
pub fn methods_link_again()
    ensures { MethodsLinkAgain }
{
    decoded_is_decode();
}

/// A law, and no work: annotations of parameters with one parameter more have a text, and one empty list more.
pub fn parameters_are_more()
    ensures { ParametersAreMore }
{}
