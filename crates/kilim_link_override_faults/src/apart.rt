//! Methods that differ from the nearest one that they override or from one beside them, each by two comparisons,
//! however many have one name and descriptor.

ghost use Rattle.std.specs.Prelude.{◌≡◌, ◌<◌, ◌^◌, ◌||◌, ◌++◌, ◌∷◌, [], Some, false, IfOk, OnOk, length};
ghost use Rattle.kilim_link_spec.specs.Qualified.{is_constructor_name};
ghost use Rattle.kilim_link_override_faults.specs.Apart.{differs_nearest, differs_here, is_apart, says_apart, apart_from};
ghost use Rattle.kilim_link_override_faults.specs.Heritage.{Finds, Inherits, sayings};

use crate::heritage::{Heritage, say};
use crate::overrides::{agrees, alike};
use crate::signature::signature_of;
use kilim_link_inherited::{Nearest, Said};
use kilim_link_spec::{ClassView, DeclaredMethod};
use kilim_link_world::{Signature, World};
use kilim_program::ClassId;
use kilim_units::{NoMemory, Seq};
use std::alloc::Global;

// Whether a method differs from the first one of the nearest ancestor that declares one that it overrides.
fn differs_nearest(
    alloc: Global,
    world: &World,
    heritage: &Heritage,
    class: ClassId,
    method: &DeclaredMethod,
    signature: &Signature,
) -> Result<bool, NoMemory>
    requires inherits { Inherits world.now heritage.now }
    requires name { signature.now.name ≡ method.now.name }
    requires descriptor { signature.now.descriptor ≡ method.now.descriptor }
    ensures { IfOk result (λ apart. apart ≡ differs_nearest world.now class method.now) }
{
    let Some(above) = heritage.nearest_shared(world, class, signature) else {
        return Ok(false);
    };
    match heritage.first_declared(world, above, signature) {
        Some(other) => match agrees(alloc, world, class, method, above, other) {
            Ok(agree) => Ok(!agree),
            Err(fault) => Err(fault),
        },
        None => Ok(false),
    }
}

// Whether a method is unlike the first one of its name and descriptor beside it.
fn differs_here(
    alloc: Global,
    world: &World,
    heritage: &Heritage,
    class: ClassId,
    method: &DeclaredMethod,
    signature: &Signature,
) -> Result<bool, NoMemory>
    requires inherits { Inherits world.now heritage.now }
    requires name { signature.now.name ≡ method.now.name }
    requires descriptor { signature.now.descriptor ≡ method.now.descriptor }
    ensures { IfOk result (λ apart. apart ≡ differs_here world.now class method.now) }
{
    match heritage.first_declared(world, class, signature) {
        Some(first) => match alike(alloc, world, class, method, first) {
            Ok(alike) => Ok(!alike),
            Err(fault) => Err(fault),
        },
        None => Ok(false),
    }
}

// Either.
fn differs(
    alloc: Global,
    world: &World,
    heritage: &Heritage,
    class: ClassId,
    method: &DeclaredMethod,
    signature: &Signature,
) -> Result<bool, NoMemory>
    requires inherits { Inherits world.now heritage.now }
    requires name { signature.now.name ≡ method.now.name }
    requires descriptor { signature.now.descriptor ≡ method.now.descriptor }
    ensures { IfOk result (λ apart. apart ≡ (differs_here world.now class method.now || differs_nearest world.now class method.now)) }
{
    match differs_here(alloc, world, heritage, class, method, signature) {
        Ok(true) => Ok(true),
        Ok(false) => differs_nearest(alloc, world, heritage, class, method, signature),
        Err(fault) => Err(fault),
    }
}

// The same of a method that overrides: constructors and private ones override nothing.
fn is_apart(
    alloc: Global,
    world: &World,
    heritage: &Heritage,
    class: ClassId,
    method: &DeclaredMethod,
) -> Result<bool, NoMemory>
    requires { Inherits world.now heritage.now }
    ensures { IfOk result (λ apart. apart ≡ is_apart world.now class method.now) }
{
    if method.name.is_text(b"<init>") {
        return Ok(false);
    }
    if method.is_private {
        return Ok(false);
    }
    let signature = signature_of(&method.name, &method.descriptor)?;
    differs(alloc, world, heritage, class, method, &signature)
}

// Says 0 of each such method of a class.
fn apart_said(
    alloc: Global,
    world: &World,
    heritage: &Heritage,
    class: ClassId,
    methods: &[DeclaredMethod],
) -> Result<Seq<Said>, NoMemory>
    requires { Inherits world.now heritage.now }
    ensures { IfOk result (λ said. said ≡ sayings (is_apart world.now class) (Some 0) methods.now) }
{
    let mut said: Seq<Said> = Seq::new(alloc);
    for method in methods {
        let Ok(apart) = is_apart(alloc, world, heritage, class, method) else {
            return Err(NoMemory);
        };
        if apart {
            let Ok(()) = say(&mut said, method, Some(0)) else {
                return Err(NoMemory);
            };
        }
    }
    Ok(said)
}

// Appends the same of a class.
fn push_apart_said(
    alloc: Global,
    said: &mut Seq<Seq<Said>>,
    world: &World,
    heritage: &Heritage,
    class: ClassId,
    methods: &[DeclaredMethod],
) -> Result<(), NoMemory>
    requires { Inherits world.now heritage.now }
    ensures { OnOk result (said.new ≡ said.old ++ sayings (is_apart world.now class) (Some 0) methods.now ∷ []) }
{
    let Ok(own) = apart_said(alloc, world, heritage, class, methods) else {
        return Err(NoMemory);
    };
    let Ok(()) = said.push(own) else {
        return Err(NoMemory);
    };
    Ok(())
}

fn all_apart_said(
    alloc: Global,
    world: &World,
    heritage: &Heritage,
    classes: &[ClassView],
) -> Result<Seq<Seq<Said>>, NoMemory>
    requires few { length classes.now < 2 ^ 32 }
    requires inherits { Inherits world.now heritage.now }
    ensures { IfOk result (λ said. said ≡ apart_from world.now 0 classes.now) }
{
    let mut said: Seq<Seq<Said>> = Seq::new(alloc);
    let mut i: u32 = 0;
    while (i as usize) < classes.len() {
        let methods = classes[i as usize].methods.as_slice();
        let Ok(()) = push_apart_said(alloc, &mut said, world, heritage, ClassId(i), methods) else {
            return Err(NoMemory);
        };
        i += 1;
    }
    Ok(said)
}

/// Where each class inherits a method that differs from the nearest one that it overrides, or from one beside it.
pub fn apart_of(alloc: Global, world: &World, heritage: &Heritage) -> Result<Nearest, NoMemory>
    requires few { length world.now.classes < 2 ^ 32 }
    requires inherits { Inherits world.now heritage.now }
    ensures { IfOk result (λ it. Finds world.now it (says_apart world.now)) }
{
    let said = all_apart_said(alloc, world, heritage, world.classes())?;
    Nearest::new(alloc, world.superclasses(), said.as_slice())
}
