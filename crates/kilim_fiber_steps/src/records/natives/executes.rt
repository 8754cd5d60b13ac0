//! The methods with which tasks begin.

ghost use Rattle.std.specs.Prelude.{◌≡◌};
ghost use Rattle.kilim_program.specs.Members.{is_task_execute, execute_of};

use kilim_program::lookups::selected;
use kilim_program::{ClassId, Method, MethodId, Program};

fn is_task_execute(method: &Method) -> bool
    ensures { result ≡ is_task_execute method.now }
{
    method.built_in && method.name.is_text(b"execute")
}

/// The method `execute` that objects of a class have.
pub fn execute_of(program: &Program, class: ClassId) -> Option<MethodId>
    ensures { result ≡ execute_of program.now class }
{
    for method in program.methods.as_slice() {
        if is_task_execute(method) {
            return selected(program, class, method);
        }
    }
    None
}
