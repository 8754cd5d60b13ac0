//! How many methods of an accepted program have code.

ghost use Rattle.std.specs.Prelude.{◌≡◌, length};
ghost use Rattle.std.specs.List.{filter};
ghost use Rattle.kilim_type_spec.specs.Typed.{has_code};

use kilim_isolation::Isolated;
use kilim_program::{Method, Program};

fn has_code(method: &Method) -> bool
    ensures { result ≡ has_code method.now }
{
    !method.code.is_empty()
}

// How many of a program's methods have code.
fn coded_in(program: &Program) -> usize
    ensures { result ≡ length (filter has_code program.now.methods) }
{
    let mut count = 0usize;
    for method in program.methods.as_slice() {
        if has_code(method) {
            count += 1;
        }
    }
    count
}

/// How many methods of an accepted program have code. The program is let go.
pub fn coded_methods(isolated: Isolated) -> usize
    ensures { result ≡ length (filter has_code isolated.typed.program.methods) }
{
    let count = coded_in(&isolated.typed.program);
    drop(isolated);
    count
}
