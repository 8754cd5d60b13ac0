//! What references refer to: `checkcast`, `instanceof` and `aastore` (JVMS 2.11.5).

ghost use Rattle.std.specs.Prelude.{◌≡◌, ◌≤◌, false, true, codes, Some, IfOk};
ghost use Rattle.kilim_run_machine.specs.Does.{does, cast_fits, is_instance, element_type};
ghost use Rattle.kilim_program.specs.Members.{named_type};
ghost use Rattle.kilim_program.specs.declared.instr.Instr.TheVariants.{Checkcast, Instanceof, Aastore};
ghost use Rattle.kilim_run_rows.specs.Types.{is_found, type_at};
ghost use Rattle.kilim_run_rows.specs.Outcome.{is_stuck, height, Shows, SameFrame};

use crate::objects::index_in;
use crate::outcome::Moved;
use kilim_program::lookups::class_named;
use kilim_program::{Base, Method, Program, Ty, Value};
use kilim_run_state::frames::Frame;
use kilim_run_state::{EndCause, Heap};
use kilim_units::NoMemory;

/// The class or array type of what a reference refers to, none of null. Want of memory comes only where a class has no
/// id.
pub fn type_of(program: &Program, value: &Value, heap: &Heap) -> Result<Option<Ty>, NoMemory>
    requires { is_found value.now heap.now ≡ true }
    ensures { IfOk result (λ ty. type_at program.now value.now heap.now ≡ Some ty) }
{
    match value {
        Value::Null => Ok(None),
        Value::Ref(at) => Ok(Some(heap.class(*at))),
        Value::Text(_) => named_type(program, b"java/lang/String"),
        Value::Box(_) => named_type(program, b"kilim/Mailbox"),
        Value::Fiber => named_type(program, b"kilim/Fiber"),
        Value::Int(_) | Value::Long(_) => unreachable!(),
    }
}

fn named_type(program: &Program, name: &[u8]) -> Result<Option<Ty>, NoMemory>
    ensures { IfOk result (λ ty. ty ≡ named_type program.now name.now) }
{
    match class_named(program, name) {
        Ok(Some(class)) => Ok(Some(Ty {
            dims: 0,
            base: Base::Class(class),
        })),
        Ok(None) => Ok(None),
        Err(_) => Err(NoMemory),
    }
}

fn cast_fits(program: &Program, from: Option<Ty>, to: &Ty) -> bool
    ensures { result ≡ cast_fits program.now from to.now }
{
    match from {
        Some(ty) => program.fits_type(&ty, to),
        None => true,
    }
}

fn is_instance(program: &Program, from: Option<Ty>, to: &Ty) -> bool
    ensures { result ≡ is_instance program.now from to.now }
{
    match from {
        Some(ty) => program.fits_type(&ty, to),
        None => false,
    }
}

// the type of the elements of an array
fn element_type(ty: Ty) -> Ty
    ensures { result ≡ element_type ty }
{
    Ty {
        dims: ty.dims.saturating_sub(1),
        base: ty.base,
    }
}

/// `checkcast`.
#[tactic(auto, unfolding(kilim_run_machine::specs::Does::does))]
#[inline(always)]
pub fn cast(
    ty: &Ty,
    program: &Program,
    own: &Method,
    next: u32,
    frame: &mut Frame,
    heap: &Heap,
) -> Moved
    requires fine { is_stuck (does program.now own.now (Checkcast ty.now) next frame.old.locals frame.old.stack.values heap.now) ≡ false }
    requires room { height (does program.now own.now (Checkcast ty.now) next frame.old.locals frame.old.stack.values heap.now) ≤ frame.old.stack.room }
    ensures step { Shows own.now (does program.now own.now (Checkcast ty.now) next frame.old.locals frame.old.stack.values heap.now) next result frame.old frame.new heap.now heap.now }
    ensures same { SameFrame frame.old frame.new }
{
    let Ok(class) = type_of(program, frame.stack.peek(0), heap) else {
        return Moved::NoMemory;
    };
    if cast_fits(program, class, ty) {
        Moved::Next
    } else {
        Moved::Raised(EndCause::Cast)
    }
}

/// `instanceof`.
#[tactic(auto, unfolding(kilim_run_machine::specs::Does::does))]
#[inline(always)]
pub fn test_type(
    ty: &Ty,
    program: &Program,
    own: &Method,
    next: u32,
    frame: &mut Frame,
    heap: &Heap,
) -> Moved
    requires fine { is_stuck (does program.now own.now (Instanceof ty.now) next frame.old.locals frame.old.stack.values heap.now) ≡ false }
    requires room { height (does program.now own.now (Instanceof ty.now) next frame.old.locals frame.old.stack.values heap.now) ≤ frame.old.stack.room }
    ensures step { Shows own.now (does program.now own.now (Instanceof ty.now) next frame.old.locals frame.old.stack.values heap.now) next result frame.old frame.new heap.now heap.now }
    ensures same { SameFrame frame.old frame.new }
{
    let class = {
        let value = frame.stack.pop();
        type_of(program, &value, heap)
    };
    let Ok(class) = class else {
        return Moved::NoMemory;
    };
    let bit = if is_instance(program, class, ty) {
        1
    } else {
        0
    };
    frame.stack.push(Value::Int(bit));
    Moved::Next
}

/// `aastore`.
#[tactic(auto, unfolding(kilim_run_machine::specs::Does::does))]
#[inline(always)]
pub fn write_reference(
    program: &Program,
    own: &Method,
    next: u32,
    frame: &mut Frame,
    heap: &mut Heap,
) -> Moved
    requires fine { is_stuck (does program.now own.now Aastore next frame.old.locals frame.old.stack.values heap.old) ≡ false }
    requires room { height (does program.now own.now Aastore next frame.old.locals frame.old.stack.values heap.old) ≤ frame.old.stack.room }
    ensures step { Shows own.now (does program.now own.now Aastore next frame.old.locals frame.old.stack.values heap.old) next result frame.old frame.new heap.old heap.new }
    ensures same { SameFrame frame.old frame.new }
{
    let value = frame.stack.pop();
    let i = frame.stack.pop_int();
    let Some(at) = frame.stack.pop_object() else {
        return Moved::Raised(EndCause::Null);
    };
    let Some(index) = index_in(heap, at, i) else {
        return Moved::Raised(EndCause::Index);
    };
    let Ok(class) = type_of(program, &value, heap) else {
        return Moved::NoMemory;
    };
    let to = element_type(heap.class(at));
    if !cast_fits(program, class, &to) {
        return Moved::Raised(EndCause::Store);
    }
    heap.set_element(at, index, value);
    Moved::Next
}
