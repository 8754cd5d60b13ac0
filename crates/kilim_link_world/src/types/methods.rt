//! The qualifiers of methods.

ghost use Rattle.std.specs.Prelude.{◌≡◌, IfOk, option_copied};
ghost use Rattle.kilim_link_spec.specs.Types.{method_text, type_in};
ghost use Rattle.kilim_link_spec.specs.Qualified.{qualified, has_fiber, is_execute, default_receiver, is_constructor_name, receiver_by, is_tree, param_by, params_by, params_of};
ghost use Rattle.kilim_program.specs.Kinds.{is_tree_kind};
ghost use Rattle.kilim_link_world.specs.types.Params.{all_at};

use crate::World;
use crate::types::marks::{annotated_as, annotated_at};
use crate::types::types::type_in;
use kilim_class_descriptors::{FieldText, MethodText};
use kilim_link_spec::{DeclaredMethod, Marks, Qualified};
use kilim_program::{ClassId, Form, Kind, Qualifier};
use kilim_units::{NoMemory, Seq, Units};
use std::alloc::Global;

fn has_fiber(form: Form) -> bool
    ensures { result ≡ has_fiber form }
{
    match form {
        Form::Plain => false,
        Form::Woven => true,
    }
}

// `execute()V`, in woven form also with the fiber as its argument.
fn is_execute(form: Form, method: &DeclaredMethod) -> bool
    ensures { result ≡ is_execute form method.now }
{
    method.name.is_text(b"execute")
        && (method.descriptor.is_text(b"()V")
            || (has_fiber(form) && method.descriptor.is_text(b"(Lkilim/Fiber;)V")))
}

fn is_tree_kind(kind: Kind) -> bool
    ensures { result ≡ is_tree_kind kind }
{
    match kind {
        Kind::Tree => true,
        Kind::Value | Kind::Private => false,
    }
}

// In a task class the receiver of `execute` is cuttable, every other one is safe.
fn default_receiver(world: &World, class: ClassId, method: &DeclaredMethod) -> Qualifier
    ensures { result ≡ default_receiver world.now class method.now }
{
    if world.is_task(class) && is_execute(world.form(), method) {
        Qualifier::Cuttable
    } else {
        Qualifier::Safe
    }
}

// The qualifier of the receiver, with these annotations on the method.
fn receiver_by(world: &World, class: ClassId, method: &DeclaredMethod, types: &[Units]) -> Qualifier
    ensures { result ≡ receiver_by world.now class method.now types.now }
{
    if method.is_static {
        Qualifier::Safe
    } else if method.name.is_text(b"<init>") {
        Qualifier::Cuttable
    } else if is_tree_kind(world.class_kind(class)) {
        annotated_as(types, default_receiver(world, class, method))
    } else {
        Qualifier::Safe
    }
}

// Whether a type is there, and a tree.
fn is_tree(world: &World, text: &FieldText) -> bool
    ensures { result ≡ is_tree world.now (type_in world.now text.now) }
{
    match type_in(world, text) {
        Some(ty) => is_tree_kind(world.kind_of(&ty)),
        None => false,
    }
}

// The qualifier of the parameter at a place, with the annotations that attributes have on it.
fn param_at(world: &World, text: &FieldText, attributes: &[Seq<Seq<Units>>], at: usize) -> Qualifier
    ensures { result ≡ param_by world.now text.now (all_at at attributes.now) }
{
    if is_tree(world, text) {
        annotated_at(attributes, at, Qualifier::Safe)
    } else {
        Qualifier::Safe
    }
}

// The qualifiers of all parameters in order.
fn params_by(
    alloc: Global,
    world: &World,
    texts: &[FieldText],
    attributes: &[Seq<Seq<Units>>],
) -> Result<Seq<Qualifier>, NoMemory>
    ensures { IfOk result (λ params. params ≡ params_by world.now texts.now attributes.now) }
{
    let mut params: Seq<Qualifier> = Seq::new(alloc);
    let mut i = 0;
    while i < texts.len() {
        params.push(param_at(world, &texts[i], attributes, i))?;
        i += 1;
    }
    Ok(params)
}

// The parameters of a descriptor, none where it is malformed.
fn params_of<'a>(text: Option<&'a MethodText>) -> &'a [FieldText]
    ensures { result.now ≡ params_of (option_copied text.entry) }
{
    match text {
        Some(text) => text.params.as_slice(),
        None => &[],
    }
}

fn copy_of(alloc: Global, params: &[Qualifier]) -> Result<Seq<Qualifier>, NoMemory>
    ensures { IfOk result (λ copy. copy ≡ params.now) }
{
    Ok(Seq::from_vec(Vec::from_slice(alloc, params)?))
}

/// The qualifiers of a method that a class declares (own): of its receiver, and of each parameter. The text is what
/// its descriptor reads as.
#[tactic(auto, unfolding(kilim_link_spec::specs::Qualified::qualified))]
pub fn qualified(
    alloc: Global,
    world: &World,
    class: ClassId,
    method: &DeclaredMethod,
    text: Option<&MethodText>,
) -> Result<Qualified, NoMemory>
    requires { option_copied text ≡ method_text method.now.descriptor }
    ensures { IfOk result (λ q. q ≡ qualified world.now class method.now) }
{
    match &method.marks {
        Marks::Stated(receiver, params) => Ok(Qualified {
            receiver: *receiver,
            params: copy_of(alloc, params.as_slice())?,
        }),
        Marks::Annotated(types, attributes) => Ok(Qualified {
            receiver: receiver_by(world, class, method, types.as_slice()),
            params: params_by(alloc, world, params_of(text), attributes.as_slice())?,
        }),
    }
}
