//! Fields and calls.

ghost use Rattle.std.specs.Prelude.{◌≡◌, ◌++◌, ◌∷◌, [], ◌&&◌, not, true, false, IfOk, option_to_list, option_copied, Some};
ghost use Rattle.kilim_type_spec.specs.Step.{by_row, type_step, may_name, holder, field_row, missing, arguments, result_types, static_row, virtual_row, special_fits, special_by, Is, class_vtype};
ghost use Rattle.kilim_program.specs.Same.{is_constructor};
ghost use Rattle.kilim_program.specs.Names.{field_of};
ghost use Rattle.kilim_program.specs.declared.names.MethodId.{MethodId};
ghost use Rattle.kilim_type_step.specs.Answers.{answers};
ghost use Rattle.kilim_type_step.specs.Operands.{operand_of, operands_of};
ghost use Rattle.kilim_type_step.specs.Families.{is_member, is_field};

use crate::apply::{NOT_INITIALIZED, WRONG_MEMBER, WRONG_SPECIAL, apply};
use crate::construct::construct;
use crate::fault::StepFault;
use crate::operands::{Also, Taken, class_vtype, vtype};
use crate::state::State;
use kilim_program::lookups::{class_at, method_at, selected};
use kilim_program::{ClassId, Field, FieldId, Instr, Method, MethodId, Program, VType};
use std::alloc::{AllocError, Global};

// A private member is of the own class.
fn may_name(method: &Method, is_private: bool, owner: ClassId) -> bool
    ensures { result ≡ may_name method.now is_private owner }
{
    !is_private || owner.0 == method.owner.0
}

// It is static, and may be named.
fn is_static_named(method: &Method, is_static: bool, is_private: bool, owner: ClassId) -> bool
    ensures { result ≡ (is_static && may_name method.now is_private owner) }
{
    is_static && may_name(method, is_private, owner)
}

// It isn't static, and may be named.
fn is_instance_named(method: &Method, is_static: bool, is_private: bool, owner: ClassId) -> bool
    ensures { result ≡ (not is_static && may_name method.now is_private owner) }
{
    !is_static && may_name(method, is_private, owner)
}

fn is_plain(method: &Method) -> bool
    ensures { result ≡ not (is_constructor method.now) }
{
    !is_constructor(method)
}

/// Whether a method is a constructor.
pub fn is_constructor(method: &Method) -> bool
    ensures { result ≡ is_constructor method.now }
{
    method.name.is_text(b"<init>")
}

// What is stored into a field stands in.
fn holder(method: &Method, owner: ClassId) -> Taken
    ensures { operand_of result ≡ holder method.now owner }
{
    if is_constructor(method) && owner.0 == method.owner.0 {
        Taken::Own(owner)
    } else {
        Taken::Is(class_vtype(owner))
    }
}

fn on_found_field(
    program: &Program,
    method: &Method,
    instr: &Instr,
    field: &Field,
    state: &mut State,
) -> Result<(), StepFault>
    requires { is_field instr.now ≡ true }
    ensures { answers (by_row program.now method.now 0 (field_row instr.now method.now (Some field.now)) state.old) result state.new }
{
    let t = vtype(field.ty);
    let owner = field.owner;
    match instr {
        Instr::Getstatic(_) => {
            let named = is_static_named(method, field.is_static, field.is_private, owner);
            apply(
                program,
                method,
                state,
                &[],
                Some(t),
                &[Also::Needs(WRONG_MEMBER, named)],
            )
        }
        Instr::Getfield(_) => {
            let named = is_instance_named(method, field.is_static, field.is_private, owner);
            let takes = [Taken::Is(class_vtype(owner))];
            apply(
                program,
                method,
                state,
                &takes,
                Some(t),
                &[Also::Needs(WRONG_MEMBER, named)],
            )
        }
        Instr::Putfield(_) => {
            let named = is_instance_named(method, field.is_static, field.is_private, owner);
            let takes = [Taken::Is(t), holder(method, owner)];
            apply(
                program,
                method,
                state,
                &takes,
                None,
                &[Also::Needs(WRONG_MEMBER, named)],
            )
        }
        _ => unreachable!(),
    }
}

/// What fails always.
pub fn fail(program: &Program, method: &Method, state: &mut State) -> Result<(), StepFault>
    ensures { answers (by_row program.now method.now 0 missing state.old) result state.new }
{
    apply(
        program,
        method,
        state,
        &[],
        None,
        &[Also::Needs(WRONG_MEMBER, false)],
    )
}

fn field_at(program: &Program, field: FieldId) -> Option<&Field>
    ensures { option_copied result ≡ field_of program.now field }
{
    program.fields.as_slice().get(field.0 as usize)
}

fn on_field(
    program: &Program,
    method: &Method,
    instr: &Instr,
    field: FieldId,
    state: &mut State,
) -> Result<(), StepFault>
    requires { is_field instr.now ≡ true }
    ensures { answers (by_row program.now method.now 0 (field_row instr.now method.now (field_of program.now field)) state.old) result state.new }
{
    match field_at(program, field) {
        Some(found) => on_found_field(program, method, instr, found, state),
        None => fail(program, method, state),
    }
}

// The arguments of a call, the last first.
#[tactic(auto, using(crate::proofs::Calls::arguments_none))]
fn arguments(alloc: Global, callee: &Method) -> Result<Vec<Taken>, AllocError>
    ensures { IfOk result (λ v. operands_of v.items ≡ arguments callee.now) }
{
    let mut takes = Vec::new(alloc);
    let params = callee.params.as_slice();
    let mut left = params.len();
    while left > 0 {
        left -= 1;
        let Ok(()) = takes.push(Taken::Is(vtype(params[left]))) else {
            return Err(AllocError);
        };
    }
    Ok(takes)
}

// And the receiver.
#[tactic(auto, using(crate::proofs::Calls::receiver_on))]
fn with_receiver(alloc: Global, callee: &Method) -> Result<Vec<Taken>, AllocError>
    ensures { IfOk result (λ v. operands_of v.items ≡ arguments callee.now ++ (Is (class_vtype callee.now.owner) ∷ [])) }
{
    let Ok(mut takes) = arguments(alloc, callee) else {
        return Err(AllocError);
    };
    let Ok(()) = takes.push(Taken::Is(class_vtype(callee.owner))) else {
        return Err(AllocError);
    };
    Ok(takes)
}

fn result_of(callee: &Method) -> Option<VType>
    ensures { option_to_list result ≡ result_types callee.now.result }
{
    match callee.result {
        Some(ty) => Some(vtype(ty)),
        None => None,
    }
}

fn on_static(
    alloc: Global,
    program: &Program,
    method: &Method,
    callee: &Method,
    state: &mut State,
) -> Result<(), StepFault>
    ensures { answers (by_row program.now method.now 0 (static_row method.now (Some callee.now)) state.old) result state.new }
{
    let Ok(takes) = arguments(alloc, callee) else {
        return Err(StepFault::Memory);
    };
    let named = is_static_named(method, callee.is_static, callee.is_private, callee.owner);
    let also = [
        Also::Needs(WRONG_MEMBER, named),
        Also::Needs(NOT_INITIALIZED, is_plain(callee)),
    ];
    let applied = apply(program, method, state, &takes, result_of(callee), &also);
    drop(takes);
    applied
}

fn on_virtual(
    alloc: Global,
    program: &Program,
    method: &Method,
    callee: &Method,
    state: &mut State,
) -> Result<(), StepFault>
    ensures { answers (by_row program.now method.now 0 (virtual_row method.now (Some callee.now)) state.old) result state.new }
{
    let Ok(takes) = with_receiver(alloc, callee) else {
        return Err(StepFault::Memory);
    };
    let named = is_instance_named(method, callee.is_static, callee.is_private, callee.owner);
    let also = [
        Also::Needs(WRONG_MEMBER, named),
        Also::Needs(NOT_INITIALIZED, is_plain(callee)),
    ];
    let applied = apply(program, method, state, &takes, result_of(callee), &also);
    drop(takes);
    applied
}

// What a call from a superclass up selects isn't abstract.
#[tactic(auto, unfolding(kilim_type_spec::specs::Step::special_fits))]
fn special_fits(program: &Program, method: &Method, id: MethodId, callee: &Method) -> bool
    ensures { result ≡ special_fits program.now method.now id callee.now }
{
    if callee.owner.0 == method.owner.0 {
        return callee.is_private;
    }
    let Some(own) = class_at(program, method.owner) else {
        return false;
    };
    let Some(up) = own.superclass else {
        return false;
    };
    if !program.is_subclass(up, callee.owner) {
        return false;
    }
    match selected(program, up, callee) {
        Some(found) => match method_at(program, found) {
            Some(method) => !method.is_abstract,
            None => true,
        },
        None => true,
    }
}

#[tactic(auto, using(crate::proofs::Calls::tops_taken))]
fn on_special(
    alloc: Global,
    program: &Program,
    method: &Method,
    id: MethodId,
    callee: &Method,
    state: &mut State,
) -> Result<(), StepFault>
    ensures { answers (by_row program.now method.now 0 (special_by false program.now method.now id callee.now) state.old) result state.new }
{
    let Ok(takes) = with_receiver(alloc, callee) else {
        return Err(StepFault::Memory);
    };
    let named = is_instance_named(method, callee.is_static, callee.is_private, callee.owner);
    let fits = special_fits(program, method, id, callee);
    let also = [
        Also::Below(callee.params.len(), method.owner),
        Also::Needs(WRONG_MEMBER, named),
        Also::Needs(WRONG_SPECIAL, fits),
    ];
    let applied = apply(program, method, state, &takes, result_of(callee), &also);
    drop(takes);
    applied
}

fn on_constructor(
    alloc: Global,
    program: &Program,
    method: &Method,
    callee: &Method,
    state: &mut State,
) -> Result<(), StepFault>
    ensures { (id : MethodId) → answers (by_row program.now method.now 0 (special_by true program.now method.now id callee.now) state.old) result state.new }
{
    let Ok(takes) = arguments(alloc, callee) else {
        return Err(StepFault::Memory);
    };
    let named = is_instance_named(method, callee.is_static, callee.is_private, callee.owner);
    let constructed = construct(
        program,
        method,
        state,
        &takes,
        result_of(callee),
        callee.owner,
        named,
        !callee.is_abstract,
    );
    drop(takes);
    constructed
}

/// Fields and calls.
#[tactic(auto, using(crate::proofs::Called::constructor_called, crate::proofs::Called::special_called), unfolding(kilim_type_spec::specs::Step::row))]
pub fn on_member(
    alloc: Global,
    program: &Program,
    method: &Method,
    at: u32,
    instr: &Instr,
    state: &mut State,
) -> Result<(), StepFault>
    requires { is_member instr.now ≡ true }
    ensures { answers (type_step program.now method.now at instr.now state.old) result state.new }
{
    match instr {
        Instr::Getstatic(field) | Instr::Getfield(field) | Instr::Putfield(field) => {
            on_field(program, method, instr, *field, state)
        }
        Instr::Invokestatic(id) => match method_at(program, *id) {
            Some(callee) => on_static(alloc, program, method, callee, state),
            None => fail(program, method, state),
        },
        Instr::Invokevirtual(id) => match method_at(program, *id) {
            Some(callee) => on_virtual(alloc, program, method, callee, state),
            None => fail(program, method, state),
        },
        Instr::Invokespecial(id) => match method_at(program, *id) {
            Some(callee) => {
                if is_constructor(callee) {
                    on_constructor(alloc, program, method, callee, state)
                } else {
                    on_special(alloc, program, method, *id, callee, state)
                }
            }
            None => fail(program, method, state),
        },
        _ => unreachable!(),
    }
}
