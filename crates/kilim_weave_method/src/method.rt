//! Woven methods.

ghost use Rattle.std.specs.Prelude.{◌≡◌, ◌+◌, ◌∷◌, ◌++◌, [], true, if◌then◌else◌, IfOk, OnOk};
ghost use Rattle.kilim_program.specs.BuiltIn.{class_type};
ghost use Rattle.kilim_type_flow.specs.Table.{live_in};
ghost use Rattle.kilim_program.specs.lookups.Places.{Rising};
ghost use Rattle.kilim_weave_spec.specs.Form.{plan_of};
ghost use Rattle.kilim_weave_spec.specs.Woven as form;
ghost use Rattle.kilim_weave_laws.specs.shape.Law.{placed};
ghost use Rattle.kilim_weave_pieces.specs.Items.{items_of};
ghost use Rattle.kilim_weave_pieces.specs.Listed.{AreDeclared, Listed};
ghost use Rattle.kilim_weave_pieces.specs.Places.{at_in, block_in};
ghost use Rattle.kilim_weave_laws.specs.woven_program.Made.{made_as, method_plan};
ghost use Rattle.kilim_weave_method.specs.Flags.{AreSlots};
ghost use Rattle.kilim_weave_method.specs.Laid.{IsLaid};

use crate::copy::{Head, copy_head, with_parts};
use crate::flags::declared_flags;
use crate::slots::{argument_slots, fiber_slot, plus};
use crate::{Laid, lay, nowhere, places_of};
use kilim_program::{Base, ClassId, Method, Program, Qualifier, Ty};
use kilim_type_flow::LiveTable;
use kilim_type_spec::VerifiedFrame;
use kilim_units::{NoMemory, Seq, no_room};
use kilim_weave_code::{Items, Places, Plan, woven_items};
use kilim_weave_laws::shape::places_dont_matter;
use std::alloc::Global;

/// The locals and numbers that a woven method names.
#[derive(Clone, Copy)]
pub struct Slots {
    /// The argument slots of the old method.
    pub arguments: u16,
    /// The local of the fiber.
    pub fiber: u16,
    /// The local of the receiver.
    pub receiver: u16,
    /// The number of the fiber's first member.
    pub member: u32,
    /// The number of the fiber's class.
    pub class: u32,
}

/// A number as an id has it. Want of memory comes only where it is 2^32 or more.
pub fn number_of(count: usize) -> Result<u32, NoMemory>
    ensures { IfOk result (λ n. n ≡ count) }
{
    match u32::try_from(count) {
        Ok(number) => Ok(number),
        // room: 2^32 places, slots or instructions
        Err(_) => Err(no_room()),
    }
}

fn slots_of(program: &Program, method: &Method) -> Result<Slots, NoMemory>
    ensures { IfOk result (λ s. AreSlots program.now method.now s) }
{
    let Ok(arguments) = argument_slots(method) else {
        return Err(NoMemory);
    };
    let Ok(fiber) = fiber_slot(method, arguments) else {
        return Err(NoMemory);
    };
    let Ok(receiver) = plus(fiber, 1) else {
        return Err(NoMemory);
    };
    let Ok(member) = number_of(program.methods.len()) else {
        return Err(NoMemory);
    };
    let Ok(class) = number_of(program.classes.len()) else {
        return Err(NoMemory);
    };
    Ok(Slots {
        arguments,
        fiber,
        receiver,
        member,
        class,
    })
}

// The items of the woven method, with some places of its labels.
fn items_at(
    alloc: Global,
    program: &Program,
    method: &Method,
    frames: &[VerifiedFrame],
    live: &LiveTable,
    flags: &[bool],
    slots: Slots,
    places: &Places,
) -> Result<Items, NoMemory>
    requires slots { AreSlots program.now method.now slots }
    requires flags { AreDeclared method.now flags.now }
    requires rising { Rising method.now.code }
    requires listed { Listed program.now method.now frames.now }
    ensures { IfOk result (λ items. items_of items ≡ form.woven_items (placed (plan_of program.now method.now (live_in live.now) (λ place. 0) (λ number. 0)) (at_in places.now) (block_in places.now))) }
{
    let plan = Plan {
        program,
        method,
        frames,
        live,
        flags,
        places,
        fiber: slots.fiber,
        receiver: slots.receiver,
        member: slots.member,
        class: slots.class,
    };
    woven_items(alloc, &plan, slots.arguments)
}

// The places of the labels, by the items without any.
fn found_places(
    alloc: Global,
    program: &Program,
    method: &Method,
    frames: &[VerifiedFrame],
    live: &LiveTable,
    flags: &[bool],
    slots: Slots,
) -> Result<Places, NoMemory>
    requires slots { AreSlots program.now method.now slots }
    requires flags { AreDeclared method.now flags.now }
    requires rising { Rising method.now.code }
    requires listed { Listed program.now method.now frames.now }
    ensures { IfOk result (λ places. placed (plan_of program.now method.now (live_in live.now) (λ place. 0) (λ number. 0)) (at_in places) (block_in places) ≡ method_plan program.now method.now (live_in live.now)) }
{
    places_dont_matter();
    let first = nowhere(alloc);
    let without = items_at(alloc, program, method, frames, live, flags, slots, &first);
    drop(first);
    match without {
        Ok(items) => places_of(alloc, items),
        Err(fault) => Err(fault),
    }
}

// The items of the woven method, with the places of its labels.
fn placed_items(
    alloc: Global,
    program: &Program,
    method: &Method,
    frames: &[VerifiedFrame],
    live: &LiveTable,
    flags: &[bool],
    slots: Slots,
) -> Result<Items, NoMemory>
    requires slots { AreSlots program.now method.now slots }
    requires flags { AreDeclared method.now flags.now }
    requires rising { Rising method.now.code }
    requires listed { Listed program.now method.now frames.now }
    ensures { IfOk result (λ items. items_of items ≡ form.woven_items (method_plan program.now method.now (live_in live.now))) }
{
    let Ok(places) = found_places(alloc, program, method, frames, live, flags, slots) else {
        return Err(NoMemory);
    };
    let items = items_at(alloc, program, method, frames, live, flags, slots, &places);
    drop(places);
    items
}

// The code of the woven method, laid out.
fn laid_out(
    alloc: Global,
    program: &Program,
    method: &Method,
    frames: &[VerifiedFrame],
    live: &LiveTable,
    slots: Slots,
) -> Result<Laid, NoMemory>
    requires slots { AreSlots program.now method.now slots }
    requires rising { Rising method.now.code }
    requires listed { Listed program.now method.now frames.now }
    ensures { IfOk result (λ laid. IsLaid (form.woven_items (method_plan program.now method.now (live_in live.now))) laid) }
{
    let Ok(declared) = declared_flags(alloc, method) else {
        return Err(NoMemory);
    };
    let flags = declared.as_slice();
    let placed = placed_items(alloc, program, method, frames, live, flags, slots);
    drop(declared);
    match placed {
        Ok(items) => lay(alloc, items),
        Err(fault) => Err(fault),
    }
}

fn fiber_type(class: u32) -> Ty
    ensures { result ≡ class_type class }
{
    Ty {
        dims: 0,
        base: Base::Class(ClassId(class)),
    }
}

fn locals_with(slots: Slots, is_static: bool) -> Result<u16, NoMemory>
    ensures { IfOk result (λ n. n ≡ (if is_static then slots.receiver else slots.receiver + 1)) }
{
    if is_static {
        return Ok(slots.receiver);
    }
    let behind = plus(slots.receiver, 1)?;
    Ok(behind)
}

// One argument more, which is the fiber.
fn push_fiber(head: &mut Head, class: u32) -> Result<(), NoMemory>
    ensures { OnOk result (head.new ≡ record head.old { params = head.old.params ++ class_type class ∷ []; qualifiers = head.old.qualifiers ++ Qualifier.Safe ∷ [] }) }
{
    let Ok(()) = head.params.push(fiber_type(class)) else {
        return Err(NoMemory);
    };
    let Ok(()) = head.qualifiers.push(Qualifier::Safe) else {
        return Err(NoMemory);
    };
    Ok(())
}

/// The head of a method with the fiber as one argument more.
pub fn head_with(method: &Method, class: u32) -> Result<Head, NoMemory>
    ensures { IfOk result (λ h. h ≡ record { name = method.now.name; params = method.now.params ++ class_type class ∷ []; qualifiers = method.now.qualifiers ++ Qualifier.Safe ∷ []; handlers = method.now.handlers }) }
{
    let mut head = copy_head(method)?;
    match push_fiber(&mut head, class) {
        Ok(()) => Ok(head),
        Err(fault) => {
            drop(head);
            Err(fault)
        }
    }
}

// What the woven method has beside its code.
#[derive(Drop)]
struct Outside {
    head: Head,
    max_stack: u16,
    max_locals: u16,
}

fn outside_of(method: &Method, slots: Slots) -> Result<Outside, NoMemory>
    ensures { IfOk result (λ o. o ≡ record { head = record { name = method.now.name; params = method.now.params ++ class_type slots.class ∷ []; qualifiers = method.now.qualifiers ++ Qualifier.Safe ∷ []; handlers = method.now.handlers }; max_stack = method.now.max_stack + 4; max_locals = (if method.now.is_static then slots.receiver else slots.receiver + 1) }) }
{
    let Ok(max_stack) = plus(method.max_stack, 4) else {
        return Err(NoMemory);
    };
    let Ok(max_locals) = locals_with(slots, method.is_static) else {
        return Err(NoMemory);
    };
    let Ok(head) = head_with(method, slots.class) else {
        return Err(NoMemory);
    };
    Ok(Outside {
        head,
        max_stack,
        max_locals,
    })
}

// The method of its parts. Takes no memory.
fn made(method: &Method, outside: Outside, laid: Laid) -> (Method, Seq<bool>)
    ensures method { result.0 ≡ record method.now { name = outside.head.name; params = outside.head.params; qualifiers = outside.head.qualifiers; handlers = outside.head.handlers; max_stack = outside.max_stack; max_locals = outside.max_locals; code_length = laid.end; code = laid.code; frames = laid.frames } }
    ensures counted { result.1 ≡ laid.counted }
{
    let Laid {
        code,
        frames,
        counted,
        end,
    } = laid;
    let mut woven = with_parts(method, outside.head, code, frames);
    woven.max_stack = outside.max_stack;
    woven.max_locals = outside.max_locals;
    woven.code_length = end;
    (woven, counted)
}

// The method with other code and one argument more.
fn with_code(method: &Method, slots: Slots, laid: Laid) -> Result<(Method, Seq<bool>), NoMemory>
    ensures method { IfOk result (λ r. r.0 ≡ record method.now { params = method.now.params ++ class_type slots.class ∷ []; qualifiers = method.now.qualifiers ++ Qualifier.Safe ∷ []; max_stack = method.now.max_stack + 4; max_locals = (if method.now.is_static then slots.receiver else slots.receiver + 1); code_length = laid.end; code = laid.code; frames = laid.frames }) }
    ensures counted { IfOk result (λ r. r.1 ≡ laid.counted) }
{
    match outside_of(method, slots) {
        Ok(outside) => Ok(made(method, outside, laid)),
        Err(fault) => {
            drop(laid);
            Err(fault)
        }
    }
}

/// The woven form of a method with pausable calls, and which of its instructions count (own, after Srinivasan and Mycroft, "Kilim:
/// Isolation-Typed Actors for Java", 2008): exactly that of the definition, by its frames and its table of live slots.
pub fn woven(
    alloc: Global,
    program: &Program,
    method: &Method,
    frames: &[VerifiedFrame],
    live: &LiveTable,
) -> Result<(Method, Seq<bool>), NoMemory>
    requires rising { Rising method.now.code }
    requires listed { Listed program.now method.now frames.now }
    ensures { IfOk result (λ r. r ≡ made_as true true program.now method.now (live_in live.now)) }
{
    let Ok(slots) = slots_of(program, method) else {
        return Err(NoMemory);
    };
    let Ok(laid) = laid_out(alloc, program, method, frames, live, slots) else {
        return Err(NoMemory);
    };
    with_code(method, slots, laid)
}
