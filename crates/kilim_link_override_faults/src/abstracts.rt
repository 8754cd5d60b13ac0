//! Abstract methods that a class is left with.

ghost use Rattle.std.specs.Prelude.{◌≡◌, ◌++◌, ◌∷◌, ◌||◌, Contains, IfOk, filter, option_copied};
ghost use Rattle.std.specs.List.{list_any};
ghost use Rattle.kilim_link_spec.specs.World.{declared_methods};
ghost use Rattle.kilim_link_spec.specs.Faults.{abstract_left, is_left_here, left_above, left_inherited};
ghost use Rattle.kilim_link_spec.specs.Linked.{first_of};
ghost use Rattle.kilim_link_override_faults.specs.Parts.{is_shared, stands_in, is_nearer, is_left_over, passes_at, is_class, StandsBehind};
ghost use Rattle.kilim_program.specs.Keeps.{ancestors_of};
ghost use Rattle.kilim_link_override_faults.specs.Ancestry.{Knows};
ghost use Rattle.kilim_link_override_faults.specs.Heritage.{Inherits, first_shared};

use crate::ancestry::Ancestry;
use crate::heritage::Heritage;
use crate::overrides::{declared_of, methods_of};
use crate::signature::signature_of;
use kilim_class_file::ClassFile;
use kilim_link_spec::{DeclaredMethod, Problem};
use kilim_link_views::has_flag;
use kilim_link_world::{Signature, World};
use kilim_program::ClassId;
use kilim_units::NoMemory;
use std::alloc::Global;

// ACC_ABSTRACT (JVMS table 4.1-A).
const ABSTRACT: u16 = 0x0400;

// Whether it is the class's own abstract method, where the class isn't abstract, or the method private or static.
fn is_left_here(class_is_abstract: bool, method: &DeclaredMethod) -> bool
    ensures { result ≡ is_left_here class_is_abstract method.now }
{
    method.is_abstract && (!class_is_abstract || (method.is_private || method.is_static))
}

fn first_left_here<'a>(
    class_is_abstract: bool,
    methods: &'a [DeclaredMethod],
) -> Option<&'a DeclaredMethod>
    ensures { option_copied result ≡ first_of (filter (is_left_here class_is_abstract) methods.now) }
{
    for method in methods {
        if is_left_here(class_is_abstract, method) {
            return Some(method);
        }
    }
    None
}

fn is_shared_at(methods: &[DeclaredMethod], place: u32) -> bool
    ensures { result ≡ passes_at is_shared methods.now place }
{
    match methods.get(place as usize) {
        Some(method) => !method.is_private,
        None => false,
    }
}

fn is_shared_at_any(methods: &[DeclaredMethod], places: &[u32]) -> bool
    ensures { result ≡ list_any (passes_at is_shared methods.now) places.now }
{
    for place in places {
        if is_shared_at(methods, *place) {
            return true;
        }
    }
    false
}

/// Whether a class declares a method of that name and descriptor that isn't private.
pub fn stands_in(world: &World, signature: &Signature, class: ClassId) -> bool
    ensures { result ≡ stands_in world.now signature.now.name signature.now.descriptor class }
{
    let places = world.methods_named(class, signature);
    is_shared_at_any(methods_of(world, class), places)
}

fn stands_in_any(world: &World, signature: &Signature, classes: &[ClassId]) -> bool
    ensures { result ≡ list_any (stands_in world.now signature.now.name signature.now.descriptor) classes.now }
{
    for class in classes {
        if stands_in(world, signature, *class) {
            return true;
        }
    }
    false
}

// Whether the class or one of these, which are nearer, declares such a method.
#[tactic(auto, using(crate::proofs::Places::nearer_is))]
fn is_nearer(world: &World, signature: &Signature, class: ClassId, nearer: &[ClassId]) -> bool
    ensures { result ≡ is_nearer world.now class nearer.now signature.now.name signature.now.descriptor }
{
    stands_in(world, signature, class) || stands_in_any(world, signature, nearer)
}

// Whether this ancestor is the nearest class from a class up that declares such a method.
fn comes_from(
    world: &World,
    heritage: &Heritage,
    class: ClassId,
    signature: &Signature,
    above: ClassId,
) -> bool
    requires { Inherits world.now heritage.now }
    ensures { result ≡ is_class above (first_shared world.now signature.now.name signature.now.descriptor (class ∷ ancestors_of world.now.outline class)) }
{
    match heritage.first_shared(world, class, signature) {
        Some(nearest) => nearest.0 == above.0,
        None => false,
    }
}

// Whether an abstract method of an ancestor is left, where these classes are nearer: not where the nearest class that
// declares such a method is another.
#[tactic(auto, using(crate::proofs::Leaving::not_left))]
fn is_left_over(
    world: &World,
    heritage: &Heritage,
    class: ClassId,
    nearer: &[ClassId],
    above: ClassId,
    method: &DeclaredMethod,
) -> Result<bool, NoMemory>
    requires inherits { Inherits world.now heritage.now }
    requires behind { StandsBehind (ancestors_of world.now.outline class) nearer.now above }
    requires declared { Contains (declared_methods world.now above) method.now }
    ensures { IfOk result (λ left. left ≡ is_left_over world.now class nearer.now method.now) }
{
    if !method.is_abstract {
        return Ok(false);
    }
    if method.is_private {
        return Ok(false);
    }
    let signature = signature_of(&method.name, &method.descriptor)?;
    if comes_from(world, heritage, class, &signature, above) {
        Ok(!is_nearer(world, &signature, class, nearer))
    } else {
        Ok(false)
    }
}

fn first_left_over<'a>(
    world: &World,
    heritage: &Heritage,
    class: ClassId,
    nearer: &[ClassId],
    above: ClassId,
    methods: &'a [DeclaredMethod],
) -> Result<Option<&'a DeclaredMethod>, NoMemory>
    requires inherits { Inherits world.now heritage.now }
    requires behind { StandsBehind (ancestors_of world.now.outline class) nearer.now above }
    requires declared { methods.now ≡ declared_methods world.now above }
    ensures { IfOk result (λ found. option_copied found ≡ first_of (filter (is_left_over world.now class nearer.now) methods.now)) }
{
    for method in methods {
        match is_left_over(world, heritage, class, nearer, above, method) {
            Ok(true) => return Ok(Some(method)),
            Ok(false) => {}
            Err(fault) => return Err(fault),
        }
    }
    Ok(None)
}

// The first abstract method of an ancestor that is left.
fn first_left_above<'a>(
    world: &'a World,
    heritage: &Heritage,
    class: ClassId,
    ancestors: &[ClassId],
) -> Result<Option<&'a DeclaredMethod>, NoMemory>
    requires inherits { Inherits world.now heritage.now }
    requires all { ancestors.now ≡ ancestors_of world.now.outline class }
    ensures { IfOk result (λ found. option_copied found ≡ first_of (left_above world.now (declared_methods world.now class) ancestors.now)) }
{
    let mut i: usize = 0;
    while i < ancestors.len() {
        let nearer = &ancestors[..i];
        let above = ancestors[i];
        let methods = methods_of(world, above);
        match first_left_over(world, heritage, class, nearer, above, methods) {
            Ok(Some(method)) => return Ok(Some(method)),
            Ok(None) => {}
            Err(fault) => return Err(fault),
        }
        i += 1;
    }
    Ok(None)
}

fn first_inherited<'a>(
    alloc: Global,
    world: &'a World,
    heritage: &Heritage,
    class: ClassId,
    class_is_abstract: bool,
) -> Result<Option<&'a DeclaredMethod>, NoMemory>
    requires inherits { Inherits world.now heritage.now }
    ensures { IfOk result (λ found. option_copied found ≡ first_of (left_inherited world.now class class_is_abstract)) }
{
    if class_is_abstract {
        return Ok(None);
    }
    if heritage.leaves_none(world, class) {
        return Ok(None);
    }
    let ancestors = world.ancestors(alloc, class)?;
    first_left_above(world, heritage, class, ancestors.as_slice())
}

#[tactic(auto, using(crate::proofs::Firsts::here, crate::proofs::Firsts::later))]
fn first_left<'a>(
    alloc: Global,
    world: &'a World,
    heritage: &Heritage,
    class: ClassId,
    class_is_abstract: bool,
) -> Result<Option<&'a DeclaredMethod>, NoMemory>
    requires inherits { Inherits world.now heritage.now }
    ensures { IfOk result (λ found. option_copied found ≡ first_of (filter (is_left_here class_is_abstract) (declared_methods world.now class) ++ left_inherited world.now class class_is_abstract)) }
{
    if let Some(method) = first_left_here(class_is_abstract, methods_of(world, class)) {
        return Ok(Some(method));
    }
    first_inherited(alloc, world, heritage, class, class_is_abstract)
}

/// The first abstract method that a class is left with, where it isn't abstract, or its own one that is private or
/// static (JVMS 4.6, own): its own ones in order, then those of the nearest ancestor, and so on.
#[tactic(auto, unfolding(kilim_link_spec::specs::Faults::abstract_left))]
pub fn abstract_left(
    alloc: Global,
    world: &World,
    ancestry: &Ancestry,
    file: &ClassFile,
    class: ClassId,
) -> Result<Option<Problem>, NoMemory>
    requires { Knows world.now ancestry.now }
    ensures { IfOk result (λ found. found ≡ first_of (abstract_left world.now file.now class)) }
{
    let is_abstract = has_flag(ABSTRACT, file.access_flags);
    match first_left(alloc, world, &ancestry.heritage, class, is_abstract) {
        Ok(Some(method)) => match declared_of(method) {
            Ok(declared) => Ok(Some(Problem::AbstractLeft(declared))),
            Err(fault) => Err(fault),
        },
        Ok(None) => Ok(None),
        Err(fault) => Err(fault),
    }
}
