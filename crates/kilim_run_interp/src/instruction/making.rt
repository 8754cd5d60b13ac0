//! New objects, arrays and mailboxes (JVMS 2.11.5).

ghost use Rattle.std.specs.Prelude.{◌≡◌, ◌≤◌, ◌<◌, ◌++◌, ◌∷◌, [], ◌≤ℤ◌, false, pos, nat_lt, length, option_copied, IfOk, IfSome, OnOk};
ghost use Rattle.std.specs.List.{flat_map};
ghost use Rattle.kilim_program.specs.Names.{field_of, fields_of};
ghost use Rattle.kilim_program.specs.declared.instr.Instr.TheVariants.{New, Newarray, Anewarray};
ghost use Rattle.kilim_program.specs.Members.{object_fields};
ghost use Rattle.kilim_run_interp.specs.instruction.Making.{instance_type, first_fields};
ghost use Rattle.kilim_run_state.specs.Objects.{first_value, first_value_of, new_array, new_object};
ghost use Rattle.kilim_run_machine.specs.Does.{does, array_limit, is_mailbox, makes_array};
ghost use Rattle.kilim_run_machine.specs.Effect.{on_int};
ghost use Rattle.kilim_run_rows.specs.Outcome.{is_stuck, height, Shows, SameFrame, IsAdded};

use kilim_program::lookups::{class_at, line_of};
use kilim_program::{Base, ClassId, Field, FieldId, Method, Program, Ty, Value};
use kilim_run_rows::Moved;
use kilim_run_state::frames::Frame;
use kilim_run_state::{EndCause, Heap, Object};
use kilim_units::{NoMemory, Seq};
use std::alloc::Global;

/// The most elements of an array.
pub const MOST_ELEMENTS: usize = 1_048_576;

fn is_mailbox(program: &Program, class: ClassId) -> bool
    ensures { result ≡ is_mailbox program.now class }
{
    match class_at(program, class) {
        Some(found) => found.name.is_text(b"kilim/Mailbox"),
        None => false,
    }
}

fn first_value_of(base: Base) -> Value
    ensures { result ≡ first_value_of base }
{
    match base {
        Base::Long => Value::Long(0),
        Base::Class(_) => Value::Null,
        Base::Bool | Base::Byte | Base::Char | Base::Short | Base::Int => Value::Int(0),
    }
}

fn first_value(ty: Ty) -> Value
    ensures { result ≡ first_value ty }
{
    if ty.dims == 0 {
        first_value_of(ty.base)
    } else {
        Value::Null
    }
}

fn field_at(program: &Program, id: FieldId) -> Option<&Field>
    ensures { option_copied result ≡ field_of program.now id }
{
    program.fields.as_slice().get(id.0 as usize)
}

// The type of an instance field; of a static one none.
fn instance_type(program: &Program, id: FieldId) -> Option<Ty>
    ensures { result ≡ instance_type program.now id }
{
    match field_at(program, id) {
        Some(field) => {
            if field.is_static {
                None
            } else {
                Some(field.ty)
            }
        }
        None => None,
    }
}

// A field with its first value behind others; a static one isn't put there.
#[tactic(auto, using(crate::proofs::instruction::Fields::field_passed, crate::proofs::instruction::Fields::field_taken))]
fn push_field(
    fields: &mut Vec<(FieldId, Value)>,
    program: &Program,
    id: FieldId,
) -> Result<(), NoMemory>
    ensures { OnOk result (fields.new.items ≡ fields.old.items ++ first_fields program.now (id ∷ [])) }
{
    match instance_type(program, id) {
        Some(ty) => {
            let Ok(()) = fields.push((id, first_value(ty))) else {
                return Err(NoMemory);
            };
            Ok(())
        }
        None => Ok(()),
    }
}

// The instance fields that a class declares, with their first values, behind others.
fn push_fields(
    fields: &mut Vec<(FieldId, Value)>,
    program: &Program,
    declared: &[FieldId],
) -> Result<(), NoMemory>
    ensures { OnOk result (fields.new.items ≡ fields.old.items ++ first_fields program.now declared.now) }
{
    for id in declared {
        let Ok(()) = push_field(fields, program, *id) else {
            return Err(NoMemory);
        };
    }
    Ok(())
}

// The declared fields of a class.
fn fields_of(program: &Program, class: ClassId) -> &[FieldId]
    ensures { result.now ≡ fields_of program.now class }
{
    match class_at(program, class) {
        Some(found) => found.fields.as_slice(),
        None => &[],
    }
}

// The instance fields of these classes, with their first values, behind others.
fn push_fields_of(
    fields: &mut Vec<(FieldId, Value)>,
    program: &Program,
    line: &[ClassId],
) -> Result<(), NoMemory>
    ensures { OnOk result (fields.new.items ≡ fields.old.items ++ first_fields program.now (flat_map (fields_of program.now) line.now)) }
{
    for at in line {
        let Ok(()) = push_fields(fields, program, fields_of(program, *at)) else {
            return Err(NoMemory);
        };
    }
    Ok(())
}

/// A new object of a class, with the fields of its superclasses first.
pub fn new_object(alloc: Global, program: &Program, class: ClassId) -> Result<Object, NoMemory>
    ensures { IfOk result (λ object. object ≡ new_object program.now class) }
{
    let Ok(mut line) = line_of(alloc, program, class) else {
        return Err(NoMemory);
    };
    line.reverse();
    let mut fields = Vec::new(alloc);
    let Ok(()) = push_fields_of(&mut fields, program, &line) else {
        return Err(NoMemory);
    };
    Ok(Object {
        class: Ty {
            dims: 0,
            base: Base::Class(class),
        },
        fields: Seq::from_vec(fields),
        elements: Seq::new(alloc),
    })
}

/// A new array of that type, with so many elements.
pub fn new_array(alloc: Global, ty: Ty, element: &Value, length: usize) -> Result<Object, NoMemory>
    ensures { IfOk result (λ object. object ≡ new_array ty element.now length) }
{
    let Ok(first) = element.clone() else {
        return Err(NoMemory);
    };
    let Ok(elements) = vec![in alloc; first; length] else {
        return Err(NoMemory);
    };
    Ok(Object {
        class: ty,
        fields: Seq::new(alloc),
        elements: Seq::from_vec(elements),
    })
}

// Adds an object, and puts its name on top of the stack.
fn add_object(object: Object, frame: &mut Frame, heap: &mut Heap) -> Option<u32>
    requires { length frame.old.stack.values < frame.old.stack.room }
    ensures added { IfSome result (λ at. IsAdded at object frame.old frame.new heap.old heap.new) }
    ensures same { SameFrame frame.old frame.new }
{
    match heap.add(object) {
        Ok(at) => {
            frame.stack.push(Value::Ref(at));
            Some(at)
        }
        Err(_) => None,
    }
}

// Whether an array would have too many elements.
#[tactic(auto, unfolding(kilim_run_machine::specs::Does::array_limit))]
fn is_too_long(length: usize) -> bool
    ensures { result ≡ nat_lt array_limit length }
{
    length > MOST_ELEMENTS
}

fn length_of(size: &i32) -> usize
    requires { pos 0 ≤ℤ size.now }
    ensures { size.now ≡ pos result }
{
    *size as usize
}

/// `new`.
#[tactic(auto, unfolding(kilim_run_machine::specs::Does::does))]
#[inline(always)]
pub fn make_object(
    alloc: Global,
    class: ClassId,
    program: &Program,
    own: &Method,
    next: u32,
    frame: &mut Frame,
    heap: &mut Heap,
) -> Moved
    requires fine { is_stuck (does program.now own.now (New class) next frame.old.locals frame.old.stack.values heap.old) ≡ false }
    requires room { height (does program.now own.now (New class) next frame.old.locals frame.old.stack.values heap.old) ≤ frame.old.stack.room }
    ensures step { Shows own.now (does program.now own.now (New class) next frame.old.locals frame.old.stack.values heap.old) next result frame.old frame.new heap.old heap.new }
    ensures same { SameFrame frame.old frame.new }
{
    if is_mailbox(program, class) {
        return Moved::Opened;
    }
    let Ok(object) = new_object(alloc, program, class) else {
        return Moved::NoMemory;
    };
    match add_object(object, frame, heap) {
        Some(at) => Moved::Made(at),
        None => Moved::NoMemory,
    }
}

/// A new array, with the size on top of the stack.
#[inline(always)]
pub fn make_array(
    alloc: Global,
    ty: Ty,
    element: &Value,
    own: &Method,
    next: u32,
    frame: &mut Frame,
    heap: &mut Heap,
) -> Moved
    requires fine { is_stuck (on_int frame.old.stack.values (λ n rest. makes_array ty element.now n next frame.old.locals rest heap.old)) ≡ false }
    requires room { height (on_int frame.old.stack.values (λ n rest. makes_array ty element.now n next frame.old.locals rest heap.old)) ≤ frame.old.stack.room }
    ensures step { Shows own.now (on_int frame.old.stack.values (λ n rest. makes_array ty element.now n next frame.old.locals rest heap.old)) next result frame.old frame.new heap.old heap.new }
    ensures same { SameFrame frame.old frame.new }
{
    let size = frame.stack.pop_int();
    if size < 0 {
        return Moved::Raised(EndCause::Size);
    }
    let length = length_of(&size);
    if is_too_long(length) {
        return Moved::Ended(EndCause::Large);
    }
    let Ok(object) = new_array(alloc, ty, element, length) else {
        return Moved::NoMemory;
    };
    match add_object(object, frame, heap) {
        Some(at) => Moved::Made(at),
        None => Moved::NoMemory,
    }
}

/// `newarray`.
#[tactic(auto, unfolding(kilim_run_machine::specs::Does::does))]
#[inline(always)]
pub fn make_primitive_array(
    alloc: Global,
    base: Base,
    program: &Program,
    own: &Method,
    next: u32,
    frame: &mut Frame,
    heap: &mut Heap,
) -> Moved
    requires fine { is_stuck (does program.now own.now (Newarray base) next frame.old.locals frame.old.stack.values heap.old) ≡ false }
    requires room { height (does program.now own.now (Newarray base) next frame.old.locals frame.old.stack.values heap.old) ≤ frame.old.stack.room }
    ensures step { Shows own.now (does program.now own.now (Newarray base) next frame.old.locals frame.old.stack.values heap.old) next result frame.old frame.new heap.old heap.new }
    ensures same { SameFrame frame.old frame.new }
{
    let ty = Ty { dims: 1, base };
    make_array(alloc, ty, &first_value_of(base), own, next, frame, heap)
}

/// `anewarray`. An array of 255 dimensions is refused by verification, so that there is want of memory for more.
#[tactic(auto, unfolding(kilim_run_machine::specs::Does::does))]
#[inline(always)]
pub fn make_reference_array(
    alloc: Global,
    element: &Ty,
    program: &Program,
    own: &Method,
    next: u32,
    frame: &mut Frame,
    heap: &mut Heap,
) -> Moved
    requires fine { is_stuck (does program.now own.now (Anewarray element.now) next frame.old.locals frame.old.stack.values heap.old) ≡ false }
    requires room { height (does program.now own.now (Anewarray element.now) next frame.old.locals frame.old.stack.values heap.old) ≤ frame.old.stack.room }
    ensures step { Shows own.now (does program.now own.now (Anewarray element.now) next frame.old.locals frame.old.stack.values heap.old) next result frame.old frame.new heap.old heap.new }
    ensures same { SameFrame frame.old frame.new }
{
    if element.dims == u8::MAX {
        return Moved::NoMemory;
    }
    let ty = Ty {
        dims: element.dims + 1,
        base: element.base,
    };
    make_array(alloc, ty, &Value::Null, own, next, frame, heap)
}
