//! Fields that the kind of their class doesn't allow.

ghost use Rattle.std.specs.Prelude.{◌≡◌, IfOk, filter, option_copied};
ghost use Rattle.kilim_link_spec.specs.Faults.{field_kinds, may_hold, member_of};
ghost use Rattle.kilim_link_spec.specs.Linked.{first_of};
ghost use Rattle.kilim_link_faults.specs.Parts.{holds_badly, type_of};

use kilim_class_descriptors::FieldText;
use kilim_class_file::{ClassFile, MemberInfo, MemberName};
use kilim_link_mentions::field_text;
use kilim_link_spec::Problem;
use kilim_link_views::{member_descriptor, member_name};
use kilim_link_world::World;
use kilim_link_world::types::type_in;
use kilim_program::{ClassId, Ty};
use kilim_units::{NoMemory, Units};
use std::alloc::Global;

// The name and the descriptor of a member of a file.
fn member_of(alloc: Global, file: &ClassFile, member: &MemberInfo) -> Result<MemberName, NoMemory>
    ensures { IfOk result (λ named. named ≡ member_of file.now member.now) }
{
    let Ok(name) = Units::from_slice(alloc, member_name(file, member)) else {
        return Err(NoMemory);
    };
    let Ok(descriptor) = Units::from_slice(alloc, member_descriptor(file, member)) else {
        return Err(NoMemory);
    };
    Ok(MemberName { name, descriptor })
}

// The type of a descriptor, where it is one and its class is there.
fn type_of(world: &World, text: Option<&FieldText>) -> Option<Ty>
    ensures { result ≡ type_of world.now (option_copied text.entry) }
{
    match text {
        Some(text) => type_in(world, text),
        None => None,
    }
}

// Whether a field of this type may stand in the class; that a type isn't there is another problem.
fn may_hold(world: &World, class: ClassId, ty: Option<Ty>) -> bool
    ensures { result ≡ may_hold world.now class ty }
{
    match ty {
        Some(ty) => {
            let outline = world.outline();
            outline.field_may_hold(outline.class_kind(class), &ty)
        }
        None => true,
    }
}

fn holds_badly(
    alloc: Global,
    world: &World,
    file: &ClassFile,
    class: ClassId,
    field: &MemberInfo,
) -> Result<bool, NoMemory>
    ensures { IfOk result (λ bad. bad ≡ holds_badly world.now file.now class field.now) }
{
    let Ok(descriptor) = Units::from_slice(alloc, member_descriptor(file, field)) else {
        return Err(NoMemory);
    };
    let Ok(text) = field_text(alloc, &descriptor) else {
        return Err(NoMemory);
    };
    Ok(!may_hold(world, class, type_of(world, text.as_ref())))
}

fn first_held_badly<'a>(
    alloc: Global,
    world: &World,
    file: &ClassFile,
    class: ClassId,
    fields: &'a [MemberInfo],
) -> Result<Option<&'a MemberInfo>, NoMemory>
    ensures { IfOk result (λ found. option_copied found ≡ first_of (filter (holds_badly world.now file.now class) fields.now)) }
{
    for field in fields {
        match holds_badly(alloc, world, file, class, field) {
            Ok(true) => return Ok(Some(field)),
            Ok(false) => {}
            Err(fault) => return Err(fault),
        }
    }
    Ok(None)
}

/// The first field of a class that its kind doesn't allow (own).
#[tactic(auto, unfolding(kilim_link_spec::specs::Faults::field_kinds))]
pub fn field_kinds(
    alloc: Global,
    world: &World,
    file: &ClassFile,
    class: ClassId,
) -> Result<Option<Problem>, NoMemory>
    ensures { IfOk result (λ found. found ≡ first_of (field_kinds world.now file.now class)) }
{
    match first_held_badly(alloc, world, file, class, file.fields.as_slice()) {
        Ok(Some(field)) => match member_of(alloc, file, field) {
            Ok(member) => Ok(Some(Problem::FieldKind(member))),
            Err(fault) => Err(fault),
        },
        Ok(None) => Ok(None),
        Err(fault) => Err(fault),
    }
}
