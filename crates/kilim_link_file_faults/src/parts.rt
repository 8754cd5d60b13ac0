//! Parts that are left out.

ghost use Rattle.std.specs.Prelude.{◌≡◌, map, IfOk};
ghost use Rattle.std.specs.List.{flat_map};
ghost use Rattle.kilim_program.specs.declared.names.ClassId.{ClassId};
ghost use Rattle.kilim_link_spec.specs.Linked.{first_of};
ghost use Rattle.kilim_link_spec.specs.LeftOut.{has_other_parameters, has_static_field, if_left, left_out_parts};
ghost use Rattle.kilim_link_spec.specs.Mentions.{class_names, mentions_of, types_mentioned};
ghost use Rattle.kilim_link_spec.specs.Faults.{left_out};
ghost use Rattle.kilim_link_file_faults.specs.Lefts.{tested_parts};
ghost use Rattle.kilim_link_file_faults.specs.Shapes.{shape_of};

use crate::fields::has_static_field;
use crate::methods::{
    has_fiber_name, has_initializer, has_interface, has_method_flag, has_pausable_constructor,
    has_pausable_handlers, left_out_op,
};
use crate::parameters::has_other_parameters;
use crate::types::{Shape, has_float, has_task_array, shapes};
use kilim_class_file::ClassFile;
use kilim_link_spec::{LeftOutPart, Mention, Problem};
use kilim_link_views::has_flag;
use kilim_link_world::World;
use kilim_units::{NoMemory, Units};
use std::alloc::Global;

// ACC_SUPER of a class, ACC_SYNCHRONIZED and ACC_NATIVE of a method (JVMS tables 4.1-A, 4.6-A).
const SUPER: u16 = 0x0020;

const SYNCHRONIZED: u16 = 0x0020;

const NATIVE: u16 = 0x0100;

// The first part whose test holds.
fn first_held(tests: &[(bool, LeftOutPart)]) -> Option<LeftOutPart>
    ensures { result ≡ first_of (flat_map (λ t. if_left t.0 t.1) tests.now) }
{
    for test in tests {
        if test.0 {
            return Some(test.1);
        }
    }
    None
}

// The first of those that stand behind the left-out instructions. It is known what types the file names, whether it has
// a static field that is left out, and whether it has other parameters.
fn first_passed(
    world: &World,
    file: &ClassFile,
    mentions: &[Mention],
    names: &[Units],
    types: &[Shape],
    static_field: bool,
    other_parameters: bool,
) -> Option<LeftOutPart>
    requires mentioned { mentions.now ≡ mentions_of file.now }
    requires named { names.now ≡ class_names file.now }
    requires shaped { types.now ≡ flat_map (λ m. map shape_of (types_mentioned m)) mentions.now }
    requires fields { static_field ≡ has_static_field world.now file.now }
    requires parameters { other_parameters ≡ has_other_parameters file.now }
    ensures { result ≡ first_of (tested_parts world.now file.now) }
{
    let has_super = has_flag(SUPER, file.access_flags);
    let synchronized = has_method_flag(SYNCHRONIZED, file);
    let pausable_constructor = has_pausable_constructor(file);
    let task_array = has_task_array(world, file, mentions, types);
    first_held(&[
        (has_float(file, mentions, types), LeftOutPart::Float),
        (has_initializer(file), LeftOutPart::ClassInitializer),
        (static_field, LeftOutPart::StaticField),
        (synchronized, LeftOutPart::Synchronized),
        (has_method_flag(NATIVE, file), LeftOutPart::Native),
        (has_interface(file), LeftOutPart::Interface),
        (!has_super, LeftOutPart::NoSuperFlag),
        (pausable_constructor, LeftOutPart::PausableConstructor),
        (has_pausable_handlers(file), LeftOutPart::PausableHandlers),
        (task_array, LeftOutPart::TaskArray),
        (has_fiber_name(world, file, names), LeftOutPart::Fiber),
        (other_parameters, LeftOutPart::ParameterAnnotations),
    ])
}

// The same, where nothing is known yet.
fn first_tested(
    alloc: Global,
    world: &World,
    file: &ClassFile,
    mentions: &[Mention],
    names: &[Units],
) -> Result<Option<LeftOutPart>, NoMemory>
    requires mentioned { mentions.now ≡ mentions_of file.now }
    requires named { names.now ≡ class_names file.now }
    ensures { IfOk result (λ found. found ≡ first_of (tested_parts world.now file.now)) }
{
    let Ok(static_field) = has_static_field(alloc, world, file) else {
        return Err(NoMemory);
    };
    let Ok(other_parameters) = has_other_parameters(alloc, file) else {
        return Err(NoMemory);
    };
    let Ok(shapes) = shapes(alloc, mentions) else {
        return Err(NoMemory);
    };
    let types = shapes.as_slice();
    Ok(first_passed(
        world,
        file,
        mentions,
        names,
        types,
        static_field,
        other_parameters,
    ))
}

/// The first part of a class, in the order of `LeftOutPart`, that is left out (own); none where there is none. Takes the
/// file, what it names, and the names of the classes that it names.
#[tactic(auto, using(crate::proofs::Lefts::parted))]
pub fn left_out(
    alloc: Global,
    world: &World,
    file: &ClassFile,
    mentions: &[Mention],
    names: &[Units],
) -> Result<Option<LeftOutPart>, NoMemory>
    requires mentioned { mentions.now ≡ mentions_of file.now }
    requires named { names.now ≡ class_names file.now }
    ensures { IfOk result (λ found. found ≡ first_of (left_out_parts world.now file.now)) }
{
    match left_out_op(alloc, file) {
        Ok(Some(number)) => Ok(Some(LeftOutPart::Opcode(number))),
        Ok(None) => first_tested(alloc, world, file, mentions, names),
        Err(fault) => Err(fault),
    }
}

/// The same as a problem of the class.
#[tactic(auto, unfolding(kilim_link_spec::specs::Faults::left_out))]
pub fn left_out_problem(
    alloc: Global,
    world: &World,
    file: &ClassFile,
    mentions: &[Mention],
    names: &[Units],
) -> Result<Option<Problem>, NoMemory>
    requires mentioned { mentions.now ≡ mentions_of file.now }
    requires named { names.now ≡ class_names file.now }
    ensures { IfOk result (λ found. (c : ClassId) → found ≡ first_of (left_out world.now file.now c)) }
{
    match left_out(alloc, world, file, mentions, names) {
        Ok(Some(part)) => Ok(Some(Problem::LeftOut(part))),
        Ok(None) => Ok(None),
        Err(fault) => Err(fault),
    }
}
