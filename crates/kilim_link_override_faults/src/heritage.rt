//! What classes inherit: the nearest one that declares a method, and whether an abstract one is left.

ghost use Rattle.std.specs.Prelude.{◌≡◌, ◌<◌, ◌^◌, ◌++◌, ◌∷◌, [], Some, None, true, false, IfOk, OnOk, length, option_copied, option_map};
ghost use Rattle.kilim_program.specs.Keeps.{ancestors_of};
ghost use Rattle.kilim_link_spec.specs.Faults.{left_above};
ghost use Rattle.kilim_link_spec.specs.World.{declared_methods};
ghost use Rattle.kilim_link_override_faults.specs.Parts.{is_shared};
ghost use Rattle.kilim_link_override_faults.specs.Heritage.{Finds, Inherits, says_left, LeavesNone, LeavesSome, first_shared, first_declared, is_shared_abstract, saying, sayings, left_sayings, numbered, places_in, all_numbered, all_places, own_at, placed, left_by_class};

use crate::overrides::methods_of;
use crate::signature::signature_of;
use kilim_link_inherited::{Nearest, Said};
use kilim_link_spec::{ClassView, DeclaredMethod};
use kilim_link_world::{Signature, World};
use kilim_program::ClassId;
use kilim_units::{NoMemory, Seq, no_room};
use std::alloc::Global;

/// Where a method is declared: its class, and its index among the methods of that class.
#[derive(Clone, Copy)]
pub struct Place {
    pub class: ClassId,
    pub index: usize,
}

/// What each class inherits, by name and descriptor.
#[derive(Drop)]
pub struct Heritage {
    // The methods that aren't private, in order.
    places: Seq<Place>,
    // The first such method of the nearest class that declares one: its number among them.
    shared: Nearest,
    // Whether that class declares an abstract one.
    left: Nearest,
}

/// Says this of a method.
pub fn say(
    said: &mut Seq<Said>,
    method: &DeclaredMethod,
    value: Option<u32>,
) -> Result<(), NoMemory>
    ensures { OnOk result (said.new ≡ said.old ++ saying value method.now ∷ []) }
{
    let Ok(signature) = signature_of(&method.name, &method.descriptor) else {
        return Err(NoMemory);
    };
    let Ok(()) = said.push(Said { signature, value }) else {
        return Err(NoMemory);
    };
    Ok(())
}

// Says of each method that isn't private that none is left.
fn say_shared(said: &mut Seq<Said>, methods: &[DeclaredMethod]) -> Result<(), NoMemory>
    ensures { OnOk result (said.new ≡ said.old ++ sayings is_shared None methods.now) }
{
    for method in methods {
        if !method.is_private {
            let Ok(()) = say(said, method, None) else {
                return Err(NoMemory);
            };
        }
    }
    Ok(())
}

// Says of each abstract method that isn't private that it is left.
fn say_abstract(said: &mut Seq<Said>, methods: &[DeclaredMethod]) -> Result<(), NoMemory>
    ensures { OnOk result (said.new ≡ said.old ++ sayings is_shared_abstract (Some 0) methods.now) }
{
    for method in methods {
        if method.is_abstract && !method.is_private {
            let Ok(()) = say(said, method, Some(0)) else {
                return Err(NoMemory);
            };
        }
    }
    Ok(())
}

// The number of the next place. So many that it fits no `u32` are taken for want of memory.
fn next_number(places: &Seq<Place>) -> Result<u32, NoMemory>
    ensures { IfOk result (λ number. number ≡ length places.now) }
{
    match u32::try_from(places.len()) {
        Ok(number) => Ok(number),
        // room: 2^32 methods
        Err(_) => Err(no_room()),
    }
}

// Says of a method its number, and keeps where it stands.
fn say_number(
    said: &mut Seq<Said>,
    places: &mut Seq<Place>,
    place: Place,
    method: &DeclaredMethod,
) -> Result<(), NoMemory>
    ensures said { OnOk result (said.new ≡ said.old ++ saying (Some (length places.old)) method.now ∷ []) }
    ensures kept { OnOk result (places.new ≡ places.old ++ place ∷ []) }
{
    let Ok(number) = next_number(places) else {
        return Err(NoMemory);
    };
    let Ok(()) = say(said, method, Some(number)) else {
        return Err(NoMemory);
    };
    let Ok(()) = places.push(place) else {
        return Err(NoMemory);
    };
    Ok(())
}

// Says of each method of a class that isn't private its number, and keeps where it stands.
fn shared_said(
    alloc: Global,
    places: &mut Seq<Place>,
    class: ClassId,
    methods: &[DeclaredMethod],
) -> Result<Seq<Said>, NoMemory>
    ensures said { IfOk result (λ said. said ≡ numbered (length places.old) methods.now) }
    ensures kept { OnOk result (places.new ≡ places.old ++ places_in class 0 methods.now) }
{
    let mut said: Seq<Said> = Seq::new(alloc);
    for index in 0..methods.len() {
        if !methods[index].is_private {
            let place = Place { class, index };
            let Ok(()) = say_number(&mut said, places, place, &methods[index]) else {
                return Err(NoMemory);
            };
        }
    }
    Ok(said)
}

// The abstract ones come first, so that they count where both are there.
fn left_said(alloc: Global, methods: &[DeclaredMethod]) -> Result<Seq<Said>, NoMemory>
    ensures { IfOk result (λ said. said ≡ left_sayings methods.now) }
{
    let mut said: Seq<Said> = Seq::new(alloc);
    let Ok(()) = say_abstract(&mut said, methods) else {
        return Err(NoMemory);
    };
    let Ok(()) = say_shared(&mut said, methods) else {
        return Err(NoMemory);
    };
    Ok(said)
}

fn all_shared_said(
    alloc: Global,
    places: &mut Seq<Place>,
    classes: &[ClassView],
) -> Result<Seq<Seq<Said>>, NoMemory>
    requires few { length classes.now < 2 ^ 32 }
    requires none { places.now ≡ [] }
    ensures said { IfOk result (λ said. said ≡ all_numbered 0 classes.now) }
    ensures kept { OnOk result (places.new ≡ all_places 0 classes.now) }
{
    let mut said: Seq<Seq<Said>> = Seq::new(alloc);
    let mut i: u32 = 0;
    while (i as usize) < classes.len() {
        let methods = classes[i as usize].methods.as_slice();
        let Ok(own) = shared_said(alloc, places, ClassId(i), methods) else {
            return Err(NoMemory);
        };
        let Ok(()) = said.push(own) else {
            return Err(NoMemory);
        };
        i += 1;
    }
    Ok(said)
}

// Appends the same of a class.
fn push_left_said(
    alloc: Global,
    said: &mut Seq<Seq<Said>>,
    methods: &[DeclaredMethod],
) -> Result<(), NoMemory>
    ensures { OnOk result (said.new ≡ said.old ++ left_sayings methods.now ∷ []) }
{
    let Ok(own) = left_said(alloc, methods) else {
        return Err(NoMemory);
    };
    let Ok(()) = said.push(own) else {
        return Err(NoMemory);
    };
    Ok(())
}

fn all_left_said(alloc: Global, classes: &[ClassView]) -> Result<Seq<Seq<Said>>, NoMemory>
    ensures { IfOk result (λ said. said ≡ left_by_class classes.now) }
{
    let mut said: Seq<Seq<Said>> = Seq::new(alloc);
    for view in classes {
        let Ok(()) = push_left_said(alloc, &mut said, view.methods.as_slice()) else {
            return Err(NoMemory);
        };
    }
    Ok(said)
}

// Whether the nearest class that declares a method declares an abstract one.
fn left_of(alloc: Global, world: &World) -> Result<Nearest, NoMemory>
    ensures { IfOk result (λ it. Finds world.now it (says_left world.now)) }
{
    let said = all_left_said(alloc, world.classes())?;
    Nearest::new(alloc, world.superclasses(), said.as_slice())
}

fn class_of(place: Option<Place>) -> Option<ClassId>
    ensures { result ≡ option_map (λ p. p.class) place }
{
    match place {
        Some(place) => Some(place.class),
        None => None,
    }
}

// The method that stands there, where it is one of that class.
fn own_at(world: &World, class: ClassId, place: Option<Place>) -> Option<&DeclaredMethod>
    ensures { option_copied result ≡ own_at world.now class place }
{
    let Some(place) = place else {
        return None;
    };
    if place.class.0 == class.0 {
        methods_of(world, class).get(place.index)
    } else {
        None
    }
}

impl Heritage {
    /// Of the classes of a world.
    pub fn new(alloc: Global, world: &World) -> Result<Heritage, NoMemory>
        requires few { length world.now.classes < 2 ^ 32 }
        ensures { IfOk result (λ h. Inherits world.now h) }
    {
        let ups = world.superclasses();
        let mut places: Seq<Place> = Seq::new(alloc);
        let Ok(shared_said) = all_shared_said(alloc, &mut places, world.classes()) else {
            return Err(NoMemory);
        };
        let Ok(shared) = Nearest::new(alloc, ups, shared_said.as_slice()) else {
            return Err(NoMemory);
        };
        let Ok(left) = left_of(alloc, world) else {
            return Err(NoMemory);
        };
        Ok(Heritage {
            places,
            shared,
            left,
        })
    }

    // Where the first method of that name and descriptor that isn't private stands in the nearest class from a class
    // up that declares one.
    fn place(&self, class: ClassId, signature: &Signature) -> Option<Place>
        ensures { result ≡ placed self.now.places self.now.shared class signature.now.name signature.now.descriptor }
    {
        match self.shared.find(class, signature) {
            Some(number) => self.places.as_slice().get(number as usize).copied(),
            None => None,
        }
    }

    /// The nearest ancestor of a class that declares a method of that name and descriptor that isn't private.
    #[tactic(auto, using(crate::proofs::Placing::nearest_known))]
    pub fn nearest_shared(
        &self,
        world: &World,
        class: ClassId,
        signature: &Signature,
    ) -> Option<ClassId>
        requires { Inherits world.now self.now }
        ensures { result ≡ first_shared world.now signature.now.name signature.now.descriptor (ancestors_of world.now.outline class) }
    {
        let Some(up) = world.outline().superclass_of(class) else {
            return None;
        };
        class_of(self.place(up, signature))
    }

    /// The nearest class from a class up that declares a method of that name and descriptor that isn't private.
    #[tactic(auto, using(crate::proofs::Placing::shared_known))]
    pub fn first_shared(
        &self,
        world: &World,
        class: ClassId,
        signature: &Signature,
    ) -> Option<ClassId>
        requires { Inherits world.now self.now }
        ensures { result ≡ first_shared world.now signature.now.name signature.now.descriptor (class ∷ ancestors_of world.now.outline class) }
    {
        class_of(self.place(class, signature))
    }

    /// The first method of that name and descriptor that a class declares and that isn't private.
    #[tactic(auto, using(crate::proofs::Placing::first_known))]
    pub fn first_declared<'a>(
        &self,
        world: &'a World,
        class: ClassId,
        signature: &Signature,
    ) -> Option<&'a DeclaredMethod>
        requires { Inherits world.now self.now }
        ensures { option_copied result ≡ first_declared world.now signature.now.name signature.now.descriptor class }
    {
        own_at(world, class, self.place(class, signature))
    }

    /// Whether of each name and descriptor the nearest class from a class up that declares such a method that isn't
    /// private declares no abstract one. Then no abstract method of an ancestor is left to it.
    #[tactic(auto, using(crate::proofs::Leaving::none_known, crate::proofs::Leaving::none_is_left, crate::proofs::Leaving::keys_named, crate::proofs::Leaving::some_is_left))]
    pub fn leaves_none(&self, world: &World, class: ClassId) -> bool
        requires { Inherits world.now self.now }
        ensures above { result ≡ true → left_above world.now (declared_methods world.now class) (ancestors_of world.now.outline class) ≡ [] }
        ensures none { result ≡ true → LeavesNone world.now class }
        ensures some { result ≡ false → LeavesSome world.now class }
    {
        self.left.has_none(class)
    }
}
