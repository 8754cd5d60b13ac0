//! `athrow`.

ghost use Rattle.std.specs.Prelude.{◌≡◌, ◌≤◌, false};
ghost use Rattle.kilim_run_machine.specs.Does.{does};
ghost use Rattle.kilim_run_machine.specs.Raising as raising;
ghost use Rattle.kilim_program.specs.declared.instr.Instr.TheVariants.{Athrow};
ghost use Rattle.kilim_run_rows.specs.Outcome.{is_stuck, height, Shows, SameFrame};

use crate::outcome::Moved;
use kilim_program::lookups::class_at;
use kilim_program::{Base, ClassId, Method, Program, Ty};
use kilim_run_state::frames::Frame;
use kilim_run_state::{EndCause, Heap};
use kilim_units::Units;

// The word of a class with whose objects a task ends.
fn word_of(name: &Units) -> EndCause
    ensures { result ≡ raising.word_in raising.words name.now }
{
    if name.is_text(b"java/lang/NullPointerException") {
        EndCause::Null
    } else if name.is_text(b"java/lang/ArrayIndexOutOfBoundsException") {
        EndCause::Index
    } else if name.is_text(b"java/lang/StringIndexOutOfBoundsException") {
        EndCause::Index
    } else if name.is_text(b"java/lang/IndexOutOfBoundsException") {
        EndCause::Index
    } else if name.is_text(b"java/lang/NegativeArraySizeException") {
        EndCause::Size
    } else if name.is_text(b"java/lang/ClassCastException") {
        EndCause::Cast
    } else if name.is_text(b"java/lang/ArrayStoreException") {
        EndCause::Store
    } else if name.is_text(b"java/lang/ArithmeticException") {
        EndCause::Zero
    } else {
        EndCause::Thrown
    }
}

/// The cause with which a task ends where an object of that class is thrown and nothing catches it.
pub fn thrown_cause(program: &Program, class: ClassId) -> EndCause
    ensures { result ≡ raising.thrown_cause program.now class }
{
    match class_at(program, class) {
        Some(found) => word_of(&found.name),
        None => EndCause::Thrown,
    }
}

/// `athrow`.
#[tactic(auto, unfolding(kilim_run_machine::specs::Does::does))]
#[inline(always)]
pub fn throw_object(
    program: &Program,
    own: &Method,
    next: u32,
    frame: &mut Frame,
    heap: &Heap,
) -> Moved
    requires { is_stuck (does program.now own.now Athrow next frame.old.locals frame.old.stack.values heap.now) ≡ false }
    ensures step { Shows own.now (does program.now own.now Athrow next frame.old.locals frame.old.stack.values heap.now) next result frame.old frame.new heap.now heap.now }
    ensures same { SameFrame frame.old frame.new }
{
    let Some(at) = frame.stack.pop_object() else {
        return Moved::Raised(EndCause::Null);
    };
    match heap.class(at) {
        Ty {
            dims: 0,
            base: Base::Class(class),
        } => Moved::Thrown(at, class, thrown_cause(program, class)),
        _ => unreachable!(),
    }
}
