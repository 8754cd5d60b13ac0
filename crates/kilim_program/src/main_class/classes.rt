//! Classes that can be main classes.

ghost use Rattle.std.specs.Prelude.{◌≡◌, codes, length, IfOk};
ghost use Rattle.std.specs.Str.{bytes_eq};
ghost use Rattle.kilim_program.specs.Names.{class_at, class_named, is_task, method_at, methods_of};
ghost use Rattle.kilim_program.specs.Members.{constructor_of, is_concrete, is_fit_main, is_own_constructor, is_plain_method};
ghost use Rattle.kilim_program.specs.main_class.Main.{fit_class_named, own_in};

use crate::lookups::{class_at, method_at};
use crate::{ClassId, MethodId, Program};
use kilim_units::{NoMemory, no_room};

// Whether a class has this name.
fn is_named(units: &[u16], name: &[u16]) -> bool
    ensures { result ≡ bytes_eq units.now name.now }
{
    if units.len() != name.len() {
        return false;
    }
    for (i, unit) in units.iter().enumerate() {
        if *unit != name[i] {
            return false;
        }
    }
    true
}

// The class of that name, the first one where there were several. Want of memory comes only where the class has no id, since
// there are too many.
fn named(program: &Program, name: &[u16]) -> Result<Option<ClassId>, NoMemory>
    ensures { IfOk result (λ found. found ≡ class_named program.now name.now) }
{
    for (at, class) in program.classes.as_slice().iter().enumerate() {
        if is_named(class.name.as_slice(), name) {
            let Ok(number) = u32::try_from(at) else {
                // room: 2^32 classes
                return Err(no_room());
            };
            return Ok(Some(ClassId(number)));
        }
    }
    Ok(None)
}

// Whether objects of a class are tasks.
fn is_task(program: &Program, class: ClassId) -> bool
    ensures { result ≡ is_task program.now class }
{
    program.is_task_within(class, program.classes.len())
}

// A class that is there and isn't abstract.
fn is_concrete(program: &Program, class: ClassId) -> bool
    ensures { result ≡ is_concrete (class_at program.now class) }
{
    match class_at(program, class) {
        Some(found) => !found.is_abstract,
        None => false,
    }
}

fn is_plain_constructor(program: &Program, id: MethodId) -> bool
    ensures { result ≡ is_plain_method program.now (codes "<init>") id }
{
    match method_at(program, id) {
        Some(method) => {
            method.name.is_text(b"<init>") && method.params.is_empty() && method.result.is_none()
        }
        None => false,
    }
}

fn methods_of(program: &Program, class: ClassId) -> &[MethodId]
    ensures { result.now ≡ methods_of program.now class }
{
    match class_at(program, class) {
        Some(found) => found.methods.as_slice(),
        None => &[],
    }
}

/// The constructor without arguments that a class declares.
pub fn constructor_of(program: &Program, class: ClassId) -> Option<MethodId>
    ensures { result ≡ constructor_of program.now class }
{
    for id in methods_of(program, class) {
        if is_plain_constructor(program, *id) {
            return Some(*id);
        }
    }
    None
}

fn is_own(program: &Program, id: MethodId) -> bool
    ensures { result ≡ is_own_constructor (method_at program.now id) }
{
    match method_at(program, id) {
        Some(found) => !found.is_static && !found.built_in,
        None => false,
    }
}

// Whether the constructor without arguments is one of the files that isn't static.
fn has_own_constructor(program: &Program, class: ClassId) -> bool
    ensures { result ≡ own_in program.now (constructor_of program.now class) }
{
    match constructor_of(program, class) {
        Some(id) => is_own(program, id),
        None => false,
    }
}

/// Whether a class is fit to be the main class: it is a class of the files, a subclass of `kilim/Task`, not abstract, and
/// declares a constructor without arguments that isn't static.
pub fn is_fit_main(program: &Program, class: ClassId) -> bool
    ensures { result ≡ is_fit_main program.now class }
{
    is_concrete(program, class) && is_task(program, class) && has_own_constructor(program, class)
}

/// The class of that name, if it is fit to be the main class.
pub fn fit_main(program: &Program, name: &[u16]) -> Result<Option<ClassId>, NoMemory>
    ensures { IfOk result (λ found. found ≡ fit_class_named program.now name.now) }
{
    let found = named(program, name)?;
    match found {
        Some(class) if is_fit_main(program, class) => Ok(Some(class)),
        _ => Ok(None),
    }
}
