//! Methods that differ from one that they override.

ghost use Rattle.std.specs.Prelude.{◌≡◌, ◌&&◌, not, false, Contains, IfOk, filter, option_copied};
ghost use Rattle.std.specs.List.{list_any};
ghost use Rattle.kilim_program.specs.Same.{same_flag, same_qualifier, same_qualifiers};
ghost use Rattle.kilim_link_spec.specs.World.{declared_methods};
ghost use Rattle.kilim_link_spec.specs.Qualified.{qualified, is_constructor_name};
ghost use Rattle.kilim_link_spec.specs.Faults.{override_differs, overrides_badly, agrees, same_qualified, declared_of, differs_from, inherited};
ghost use Rattle.kilim_link_spec.specs.Linked.{first_of};
ghost use Rattle.kilim_link_override_faults.specs.Ancestry.{Knows};
ghost use Rattle.kilim_link_override_faults.specs.Parts.{has_no_marks, is_unmarked, are_unmarked, other_differs, alike, passes_at, differs_in};

use crate::ancestry::Ancestry;
use crate::signature::signature_of;
use kilim_class_file::{ClassFile, MemberName};
use kilim_link_mentions::method_text;
use kilim_link_spec::{DeclaredMethod, Marks, Problem, Qualified};
use kilim_link_world::types::qualified;
use kilim_link_world::{Signature, World};
use kilim_program::{ClassId, Qualifier};
use kilim_units::NoMemory;
use std::alloc::Global;

/// The methods that a class declares, in order; none past the end.
pub fn methods_of(world: &World, class: ClassId) -> &[DeclaredMethod]
    ensures { result.now ≡ declared_methods world.now class }
{
    match world.view_at(class) {
        Some(view) => view.methods.as_slice(),
        None => &[],
    }
}

/// The name and the descriptor of a method as it is declared.
pub fn declared_of(method: &DeclaredMethod) -> Result<MemberName, NoMemory>
    ensures { IfOk result (λ named. named ≡ declared_of method.now) }
{
    let Ok(name) = method.name.clone() else {
        return Err(NoMemory);
    };
    let Ok(descriptor) = method.descriptor.clone() else {
        return Err(NoMemory);
    };
    Ok(MemberName { name, descriptor })
}

fn same_flag(a: bool, b: bool) -> bool
    ensures { result ≡ same_flag a b }
{
    if a { b } else { !b }
}

fn same_qualifier(a: Qualifier, b: Qualifier) -> bool
    ensures { result ≡ same_qualifier a b }
{
    match (a, b) {
        (Qualifier::Free, Qualifier::Free)
        | (Qualifier::Cuttable, Qualifier::Cuttable)
        | (Qualifier::Safe, Qualifier::Safe) => true,
        _ => false,
    }
}

#[tactic(auto, using(crate::proofs::Agreeing::apart))]
fn same_qualifiers(a: &[Qualifier], b: &[Qualifier]) -> bool
    ensures { result ≡ same_qualifiers a.now b.now }
{
    if a.len() != b.len() {
        return false;
    }
    for i in 0..a.len() {
        if !same_qualifier(a[i], b[i]) {
            return false;
        }
    }
    true
}

fn same_qualified(a: &Qualified, b: &Qualified) -> bool
    ensures { result ≡ same_qualified a.now b.now }
{
    same_qualifier(a.receiver, b.receiver)
        && same_qualifiers(a.params.as_slice(), b.params.as_slice())
}

fn qualified_of(
    alloc: Global,
    world: &World,
    class: ClassId,
    method: &DeclaredMethod,
) -> Result<Qualified, NoMemory>
    ensures { IfOk result (λ q. q ≡ qualified world.now class method.now) }
{
    let text = method_text(alloc, &method.descriptor)?;
    qualified(alloc, world, class, method, text.as_ref())
}

// Whether both pause or neither, both are static or neither, and the other one isn't final.
fn flags_agree(method: &DeclaredMethod, other: &DeclaredMethod) -> bool
    ensures { result ≡ (same_flag method.now.pausable other.now.pausable && (same_flag method.now.is_static other.now.is_static && not other.now.is_final)) }
{
    same_flag(method.pausable, other.pausable)
        && (same_flag(method.is_static, other.is_static) && !other.is_final)
}

fn has_no_marks(marks: &Marks) -> bool
    ensures { result ≡ has_no_marks marks.now }
{
    match marks {
        Marks::Annotated(on_it, on_parameters) => on_it.is_empty() && on_parameters.is_empty(),
        Marks::Stated(_, _) => false,
    }
}

// Whether a method has no annotation and is neither `execute` nor a constructor.
fn is_unmarked(method: &DeclaredMethod) -> bool
    ensures { result ≡ is_unmarked method.now }
{
    has_no_marks(&method.marks)
        && (!method.name.is_text(b"execute") && !method.name.is_text(b"<init>"))
}

// Whether both are so and have one descriptor.
fn are_unmarked(method: &DeclaredMethod, other: &DeclaredMethod) -> bool
    ensures { result ≡ are_unmarked method.now other.now }
{
    is_unmarked(method) && (is_unmarked(other) && method.descriptor == other.descriptor)
}

// Most methods have no annotation, so that nothing has to be made out.
#[tactic(auto, using(crate::proofs::Unmarked::agree))]
fn qualifiers_agree(
    alloc: Global,
    world: &World,
    class: ClassId,
    method: &DeclaredMethod,
    above: ClassId,
    other: &DeclaredMethod,
) -> Result<bool, NoMemory>
    ensures { IfOk result (λ agree. agree ≡ same_qualified (qualified world.now class method.now) (qualified world.now above other.now)) }
{
    if are_unmarked(method, other) {
        return Ok(true);
    }
    let Ok(one) = qualified_of(alloc, world, class, method) else {
        return Err(NoMemory);
    };
    let Ok(another) = qualified_of(alloc, world, above, other) else {
        return Err(NoMemory);
    };
    Ok(same_qualified(&one, &another))
}

/// Whether a method may override that one.
#[tactic(auto, using(crate::proofs::Agreeing::both_of, crate::proofs::Agreeing::none_of))]
pub fn agrees(
    alloc: Global,
    world: &World,
    class: ClassId,
    method: &DeclaredMethod,
    above: ClassId,
    other: &DeclaredMethod,
) -> Result<bool, NoMemory>
    ensures { IfOk result (λ agree. agree ≡ agrees world.now class method.now above other.now) }
{
    if flags_agree(method, other) {
        qualifiers_agree(alloc, world, class, method, above, other)
    } else {
        Ok(false)
    }
}

// Whether both pause or neither, both are static or neither, and both are final or neither.
fn flags_alike(method: &DeclaredMethod, other: &DeclaredMethod) -> bool
    ensures { result ≡ (same_flag method.now.pausable other.now.pausable && (same_flag method.now.is_static other.now.is_static && same_flag method.now.is_final other.now.is_final)) }
{
    same_flag(method.pausable, other.pausable)
        && (same_flag(method.is_static, other.is_static)
            && same_flag(method.is_final, other.is_final))
}

/// Whether two methods of a class, of one name and descriptor, are alike: what may override one may override the other.
#[tactic(auto, using(crate::proofs::Agreeing::both_of, crate::proofs::Agreeing::none_of))]
pub fn alike(
    alloc: Global,
    world: &World,
    class: ClassId,
    method: &DeclaredMethod,
    other: &DeclaredMethod,
) -> Result<bool, NoMemory>
    ensures { IfOk result (λ is. is ≡ alike world.now class method.now other.now) }
{
    if flags_alike(method, other) {
        qualifiers_agree(alloc, world, class, method, class, other)
    } else {
        Ok(false)
    }
}

// Whether a method differs from one of its name and descriptor, which isn't private.
fn differs(
    alloc: Global,
    world: &World,
    class: ClassId,
    method: &DeclaredMethod,
    above: ClassId,
    other: &DeclaredMethod,
) -> Result<bool, NoMemory>
    ensures { IfOk result (λ apart. apart ≡ other_differs world.now class method.now above other.now) }
{
    if other.is_private {
        return Ok(false);
    }
    match agrees(alloc, world, class, method, above, other) {
        Ok(agree) => Ok(!agree),
        Err(fault) => Err(fault),
    }
}

fn differs_at(
    alloc: Global,
    world: &World,
    class: ClassId,
    method: &DeclaredMethod,
    above: ClassId,
    place: u32,
) -> Result<bool, NoMemory>
    ensures { IfOk result (λ apart. apart ≡ passes_at (other_differs world.now class method.now above) (declared_methods world.now above) place) }
{
    match methods_of(world, above).get(place as usize) {
        Some(other) => differs(alloc, world, class, method, above, other),
        None => Ok(false),
    }
}

fn differs_at_any(
    alloc: Global,
    world: &World,
    class: ClassId,
    method: &DeclaredMethod,
    above: ClassId,
    places: &[u32],
) -> Result<bool, NoMemory>
    ensures { IfOk result (λ apart. apart ≡ list_any (passes_at (other_differs world.now class method.now above) (declared_methods world.now above)) places.now) }
{
    for place in places {
        match differs_at(alloc, world, class, method, above, *place) {
            Ok(true) => return Ok(true),
            Ok(false) => {}
            Err(fault) => return Err(fault),
        }
    }
    Ok(false)
}

// Whether a method differs from one that a class above declares.
fn differs_in(
    alloc: Global,
    world: &World,
    class: ClassId,
    method: &DeclaredMethod,
    signature: &Signature,
    above: ClassId,
) -> Result<bool, NoMemory>
    requires name { signature.now.name ≡ method.now.name }
    requires descriptor { signature.now.descriptor ≡ method.now.descriptor }
    ensures { IfOk result (λ apart. apart ≡ differs_in world.now class method.now above) }
{
    let places = world.methods_named(above, signature);
    differs_at_any(alloc, world, class, method, above, places)
}

fn differs_in_any(
    alloc: Global,
    world: &World,
    class: ClassId,
    method: &DeclaredMethod,
    signature: &Signature,
    ancestors: &[ClassId],
) -> Result<bool, NoMemory>
    requires name { signature.now.name ≡ method.now.name }
    requires descriptor { signature.now.descriptor ≡ method.now.descriptor }
    ensures { IfOk result (λ apart. apart ≡ list_any (differs_in world.now class method.now) ancestors.now) }
{
    for above in ancestors {
        match differs_in(alloc, world, class, method, signature, *above) {
            Ok(true) => return Ok(true),
            Ok(false) => {}
            Err(fault) => return Err(fault),
        }
    }
    Ok(false)
}

// The same of any ancestor.
fn differs_in_some(
    alloc: Global,
    world: &World,
    class: ClassId,
    method: &DeclaredMethod,
    signature: &Signature,
) -> Result<bool, NoMemory>
    requires name { signature.now.name ≡ method.now.name }
    requires descriptor { signature.now.descriptor ≡ method.now.descriptor }
    ensures { IfOk result (λ apart. apart ≡ list_any (differs_from world.now class method.now) (inherited world.now class)) }
{
    let ancestors = world.ancestors(alloc, class)?;
    differs_in_any(alloc, world, class, method, signature, ancestors.as_slice())
}

// Whether a method that overrides differs from one of any ancestor: not where none of them, nor it, differs from the
// nearest one.
#[tactic(auto, using(crate::proofs::Settling::agrees_with_all))]
fn differs_above(
    alloc: Global,
    world: &World,
    class: ClassId,
    method: &DeclaredMethod,
    ancestry: &Ancestry,
) -> Result<bool, NoMemory>
    requires knows { Knows world.now ancestry.now }
    requires declared { Contains (declared_methods world.now class) method.now }
    requires ordinary { is_constructor_name method.now.name ≡ false }
    requires shared { method.now.is_private ≡ false }
    ensures { IfOk result (λ apart. apart ≡ list_any (differs_from world.now class method.now) (inherited world.now class)) }
{
    let signature = signature_of(&method.name, &method.descriptor)?;
    if ancestry.has_apart(world, class, &signature) {
        differs_in_some(alloc, world, class, method, &signature)
    } else {
        Ok(false)
    }
}

// Whether a method of a class differs from one that it overrides, of any ancestor.
fn overrides_badly(
    alloc: Global,
    world: &World,
    class: ClassId,
    method: &DeclaredMethod,
    ancestry: &Ancestry,
) -> Result<bool, NoMemory>
    requires knows { Knows world.now ancestry.now }
    requires declared { Contains (declared_methods world.now class) method.now }
    ensures { IfOk result (λ bad. bad ≡ overrides_badly world.now class method.now) }
{
    if method.name.is_text(b"<init>") {
        return Ok(false);
    }
    if method.is_private {
        return Ok(false);
    }
    differs_above(alloc, world, class, method, ancestry)
}

fn first_bad<'a>(
    alloc: Global,
    world: &World,
    class: ClassId,
    methods: &'a [DeclaredMethod],
    ancestry: &Ancestry,
) -> Result<Option<&'a DeclaredMethod>, NoMemory>
    requires knows { Knows world.now ancestry.now }
    requires declared { methods.now ≡ declared_methods world.now class }
    ensures { IfOk result (λ found. option_copied found ≡ first_of (filter (overrides_badly world.now class) methods.now)) }
{
    for method in methods {
        match overrides_badly(alloc, world, class, method, ancestry) {
            Ok(true) => return Ok(Some(method)),
            Ok(false) => {}
            Err(fault) => return Err(fault),
        }
    }
    Ok(None)
}

/// The first method of a class, in declared order, that differs from one that it overrides in pausability, in a
/// qualifier or in being static (own), or overrides a final one (JVMS 4.10, 5.4.5).
#[tactic(auto, unfolding(kilim_link_spec::specs::Faults::override_differs))]
pub fn override_differs(
    alloc: Global,
    world: &World,
    file: &ClassFile,
    class: ClassId,
    ancestry: &Ancestry,
) -> Result<Option<Problem>, NoMemory>
    requires { Knows world.now ancestry.now }
    ensures { IfOk result (λ found. found ≡ first_of (override_differs world.now file.now class)) }
{
    let methods = methods_of(world, class);
    match first_bad(alloc, world, class, methods, ancestry) {
        Ok(Some(method)) => match declared_of(method) {
            Ok(declared) => Ok(Some(Problem::OverrideDiffers(declared))),
            Err(fault) => Err(fault),
        },
        Ok(None) => Ok(None),
        Err(fault) => Err(fault),
    }
}
