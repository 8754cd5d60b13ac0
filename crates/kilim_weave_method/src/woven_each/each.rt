//! The woven form of a method of any kind.

ghost use Rattle.std.specs.Prelude.{◌≡◌, true, false, Some, IfOk};
ghost use Rattle.kilim_program.specs.Names.{method_at};
ghost use Rattle.kilim_type_spec.specs.Typed.{has_code};
ghost use Rattle.kilim_weave_pieces.specs.Listed.{Listed};
ghost use Rattle.kilim_weave_spec.specs.Form.{IsWoven, has_calls};

use crate::woven_each::extended::{all_counted, extended, has_calls};
use crate::woven_each::kept::keeps;
use crate::{copy_method, woven};
use kilim_program::lookups::code_rises;
use kilim_program::{Method, MethodId, Program};
use kilim_type_flow::live;
use kilim_type_spec::VerifiedFrame;
use kilim_units::{NoMemory, Seq};
use kilim_weave_laws::woven_program::labels::labels_are_found;
use std::alloc::Global;

// A method that doesn't pause.
fn unchanged(
    alloc: Global,
    _program: &Program,
    method: &Method,
) -> Result<(Method, Seq<bool>), NoMemory>
    requires { method.now.pausable ≡ false }
    ensures { IfOk result (λ r. IsWoven _program.now method.now r.0 r.1) }
{
    let Ok(counted) = all_counted(alloc, method) else {
        return Err(NoMemory);
    };
    let Ok(same) = copy_method(alloc, method) else {
        return Err(NoMemory);
    };
    Ok((same, counted))
}

// A pausable method without pausable calls.
fn without_calls(
    alloc: Global,
    program: &Program,
    method: &Method,
) -> Result<(Method, Seq<bool>), NoMemory>
    requires pausable { method.now.pausable ≡ true }
    requires calls { has_calls program.now method.now ≡ false }
    ensures { IfOk result (λ r. IsWoven program.now method.now r.0 r.1) }
{
    let Ok(counted) = all_counted(alloc, method) else {
        return Err(NoMemory);
    };
    let Ok(more) = extended(alloc, program, method) else {
        return Err(NoMemory);
    };
    Ok((more, counted))
}

// A method with pausable calls.
fn with_calls(
    alloc: Global,
    program: &Program,
    frames: &[VerifiedFrame],
    id: MethodId,
    method: &Method,
) -> Result<(Method, Seq<bool>), NoMemory>
    requires there { method_at program.now id ≡ Some method.now }
    requires pausable { method.now.pausable ≡ true }
    requires calls { has_calls program.now method.now ≡ true }
    requires listed { Listed program.now method.now frames.now }
    ensures { IfOk result (λ r. IsWoven program.now method.now r.0 r.1) }
{
    labels_are_found();
    keeps(program);
    code_rises(program, id, method);
    let Ok(table) = live(alloc, method) else {
        return Err(NoMemory);
    };
    let pair = woven(alloc, program, method, frames, &table);
    drop(table);
    pair
}

/// The woven form of a method, and which of its instructions count (own, after Srinivasan and Mycroft, "Kilim: Isolation-Typed Actors
/// for Java", 2008): a method that doesn't pause as it is, one without pausable calls with the fiber as one argument more, any other
/// with its calls as groups that can pause. It takes the frames that verification lists for its places.
pub fn woven_each(
    alloc: Global,
    program: &Program,
    frames: &[VerifiedFrame],
    id: MethodId,
    method: &Method,
) -> Result<(Method, Seq<bool>), NoMemory>
    requires there { method_at program.now id ≡ Some method.now }
    requires listed { has_code method.now ≡ true → Listed program.now method.now frames.now }
    ensures { IfOk result (λ r. IsWoven program.now method.now r.0 r.1) }
{
    if !method.pausable {
        return unchanged(alloc, program, method);
    }
    let calls = has_calls(program, method)?;
    if calls {
        return with_calls(alloc, program, frames, id, method);
    }
    without_calls(alloc, program, method)
}
