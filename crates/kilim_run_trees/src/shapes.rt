//! The shape of a tree.

ghost use Rattle.std.specs.Prelude.{◌≡◌, ◌<◌, ◌≤◌, ◌++◌, ◌∷◌, [], Some, length, IfOk, OnOk, MatchOption, slice_index_or, codes};
ghost use Rattle.std.specs.List.{AllByRecursion};
ghost use Rattle.kilim_program.specs.declared.ty.Base.TheVariants as base;
ghost use Rattle.kilim_run_state.specs.declared.value.Token.TheVariants as token;
ghost use Rattle.kilim_program.specs.Names.{class_name, base_descriptor, descriptor};
ghost use Rattle.kilim_program.specs.Members.{name_in_base, shown_name};
ghost use Rattle.kilim_run_state.specs.Shapes.{shape_of, tree_limit};
ghost use Rattle.kilim_run_trees.specs.Moved.{tree_heap};
ghost use Rattle.kilim_run_trees.specs.Shaping.{Suits};
ghost use Rattle.kilim_run_trees.specs.Emitted.{plain_tokens, held_at, brackets, opening, RefWithin, Emits, HasShape, AreTokens};

use crate::tree::Tree;
use kilim_program::{Base, ClassId, Program, Ty, Value};
use kilim_run_state::{Object, Shape, Token};
use kilim_units::{NoMemory, Seq, Units, no_room};
use std::alloc::{AllocError, Global};

/// The unit with which an array's descriptor begins, once for each dimension.
const BRACKET: u8 = b'[';

fn push_letter(out: &mut Vec<u16>, letter: u8) -> Result<(), AllocError>
    ensures { OnOk result (out.new.items ≡ out.old.items ++ letter ∷ []) }
{
    out.push(u16::from(letter))?;
    Ok(())
}

// An object, and how many of its values are done.
pub(crate) fn push_frame(
    frames: &mut Vec<(u32, usize)>,
    at: u32,
    next: usize,
) -> Result<(), NoMemory>
    ensures { OnOk result (frames.new.items ≡ frames.old.items ++ (at, next) ∷ []) }
{
    frames.push((at, next))?;
    Ok(())
}

fn push_class_name(out: &mut Vec<u16>, program: &Program, class: ClassId) -> Result<(), AllocError>
    ensures { OnOk result (out.new.items ≡ out.old.items ++ class_name program.now class) }
{
    let at = class.0 as usize;
    if at < program.classes.len() {
        out.extend_from_slice(program.classes.get(at).name.as_slice())
    } else {
        Ok(())
    }
}

// The name of a class as a descriptor has it.
fn push_class(out: &mut Vec<u16>, program: &Program, class: ClassId) -> Result<(), AllocError>
    ensures { OnOk result (out.new.items ≡ out.old.items ++ base_descriptor program.now (base.Class class)) }
{
    let Ok(()) = push_letter(out, b'L') else {
        return Err(AllocError);
    };
    let Ok(()) = push_class_name(out, program, class) else {
        return Err(AllocError);
    };
    push_letter(out, b';')
}

fn push_base(out: &mut Vec<u16>, program: &Program, base: Base) -> Result<(), AllocError>
    ensures { OnOk result (out.new.items ≡ out.old.items ++ base_descriptor program.now base) }
{
    match base {
        Base::Bool => push_letter(out, b'Z'),
        Base::Byte => push_letter(out, b'B'),
        Base::Char => push_letter(out, b'C'),
        Base::Short => push_letter(out, b'S'),
        Base::Int => push_letter(out, b'I'),
        Base::Long => push_letter(out, b'J'),
        Base::Class(class) => push_class(out, program, class),
    }
}

fn push_brackets(out: &mut Vec<u16>, dims: u8) -> Result<(), AllocError>
    ensures { OnOk result (out.new.items ≡ out.old.items ++ brackets dims) }
{
    for k in 0..dims {
        let _ = k;
        let Ok(()) = push_letter(out, BRACKET) else {
            return Err(AllocError);
        };
    }
    Ok(())
}

fn push_descriptor(out: &mut Vec<u16>, program: &Program, ty: Ty) -> Result<(), AllocError>
    ensures { OnOk result (out.new.items ≡ out.old.items ++ descriptor program.now ty) }
{
    let Ok(()) = push_brackets(out, ty.dims) else {
        return Err(AllocError);
    };
    push_base(out, program, ty.base)
}

// The name of a class, which isn't copied.
fn class_shown(alloc: Global, program: &Program, class: ClassId) -> Result<Units, AllocError>
    ensures { IfOk result (λ name. name ≡ class_name program.now class) }
{
    let at = class.0 as usize;
    if at < program.classes.len() {
        program.classes.get(at).name.clone()
    } else {
        Units::from_vec(alloc, Vec::new(alloc))
    }
}

fn base_shown(alloc: Global, program: &Program, base: Base) -> Result<Units, AllocError>
    ensures { IfOk result (λ name. name ≡ name_in_base program.now base) }
{
    match base {
        Base::Class(class) => class_shown(alloc, program, class),
        _ => {
            let mut out = Vec::new(alloc);
            let Ok(()) = push_base(&mut out, program, base) else {
                return Err(AllocError);
            };
            Units::from_vec(alloc, out)
        }
    }
}

pub(crate) fn shown(alloc: Global, program: &Program, ty: Ty) -> Result<Units, AllocError>
    ensures { IfOk result (λ name. name ≡ shown_name program.now ty) }
{
    if ty.dims == 0 {
        return base_shown(alloc, program, ty.base);
    }
    let mut out = Vec::new(alloc);
    let Ok(()) = push_descriptor(&mut out, program, ty) else {
        return Err(AllocError);
    };
    Units::from_vec(alloc, out)
}

fn push_text(tokens: &mut Shape, units: &Units) -> Result<(), AllocError>
    ensures { OnOk result (tokens.new ≡ tokens.old ++ token.Text units.now ∷ []) }
{
    match units.clone() {
        Ok(copy) => tokens.push(Token::Text(copy)),
        Err(fault) => Err(fault),
    }
}

// A value that is no object has one token.
pub(crate) fn push_plain(tokens: &mut Shape, value: &Value) -> Result<(), AllocError>
    ensures { OnOk result (tokens.new ≡ tokens.old ++ plain_tokens value.now) }
{
    match value {
        Value::Int(n) => tokens.push(Token::Int(*n)),
        Value::Long(n) => tokens.push(Token::Long(*n)),
        Value::Null => tokens.push(Token::Null),
        Value::Ref(_) => Ok(()),
        Value::Text(units) => push_text(tokens, units),
        Value::Box(name) => tokens.push(Token::Box(*name)),
        Value::Fiber => Ok(()),
    }
}

// The value of an object at a place among its fields and elements.
fn value_at(objects: &[Object], at: usize, next: usize) -> Option<&Value>
    ensures { MatchOption result (length (held_at objects.now at) ≤ next) (λ v. (next < length (held_at objects.now at)) × (v.now ≡ slice_index_or (held_at objects.now at) next v.now)) }
{
    if at >= objects.len() {
        return None;
    }
    let object = &objects[at];
    let fields = object.fields.as_slice();
    if next < fields.len() {
        return Some(&fields[next].1);
    }
    let rest = next - fields.len();
    let elements = object.elements.as_slice();
    if rest < elements.len() {
        Some(&elements[rest])
    } else {
        None
    }
}

// An object begins.
fn begin(
    alloc: Global,
    program: &Program,
    objects: &[Object],
    at: u32,
    tokens: &mut Shape,
    frames: &mut Vec<(u32, usize)>,
) -> Result<(), NoMemory>
    requires { at < length objects.now }
    ensures tokens { OnOk result (tokens.new ≡ tokens.old ++ opening program.now objects.now at) }
    ensures frames { OnOk result (frames.new.items ≡ frames.old.items ++ (at, 0) ∷ []) }
{
    let Ok(name) = shown(alloc, program, objects[at as usize].class) else {
        return Err(NoMemory);
    };
    let Ok(()) = tokens.push(Token::Open(name)) else {
        return Err(NoMemory);
    };
    push_frame(frames, at, 0)
}

// One token, or the beginning of an object.
fn emit(
    alloc: Global,
    program: &Program,
    objects: &[Object],
    value: &Value,
    tokens: &mut Shape,
    frames: &mut Vec<(u32, usize)>,
) -> Result<(), NoMemory>
    requires { RefWithin value.now (length objects.now) }
    ensures { OnOk result (Emits program.now objects.now value.now tokens.old tokens.new frames.old.items frames.new.items) }
{
    match value {
        Value::Ref(at) => begin(alloc, program, objects, *at, tokens, frames),
        _ => match push_plain(tokens, value) {
            Ok(()) => Ok(()),
            Err(_) => Err(NoMemory),
        },
    }
}

// Adds the tokens of the first object.
fn emit_into(
    alloc: Global,
    program: &Program,
    objects: &[Object],
    tokens: &mut Shape,
    frames: &mut Vec<(u32, usize)>,
) -> Result<(), NoMemory>
    requires shape { HasShape program.now objects.now }
    requires no_tokens { tokens.old ≡ [] }
    requires no_frames { frames.old.items ≡ [] }
    ensures { OnOk result (AreTokens program.now objects.now tokens.new) }
{
    let Ok(()) = begin(alloc, program, objects, 0, tokens, frames) else {
        return Err(NoMemory);
    };
    while let Some((at, next)) = frames.pop() {
        match value_at(objects, at as usize, next) {
            None => {
                let Ok(()) = tokens.push(Token::Close) else {
                    return Err(NoMemory);
                };
            }
            Some(value) => {
                let Some(after) = next.checked_add(1) else {
                    // room: 2^64 objects of a tree
                    return Err(no_room());
                };
                let Ok(()) = push_frame(frames, at, after) else {
                    return Err(NoMemory);
                };
                let Ok(()) = emit(alloc, program, objects, value, tokens, frames) else {
                    return Err(NoMemory);
                };
            }
        }
    }
    Ok(())
}

// The tokens of the first object.
fn emit_all(alloc: Global, program: &Program, objects: &[Object]) -> Result<Shape, NoMemory>
    requires { HasShape program.now objects.now }
    ensures { IfOk result (λ tokens. AreTokens program.now objects.now tokens) }
{
    let mut tokens = Seq::new(alloc);
    let mut frames = Vec::new(alloc);
    match emit_into(alloc, program, objects, &mut tokens, &mut frames) {
        Ok(()) => Ok(tokens),
        Err(fault) => {
            drop(tokens);
            Err(fault)
        }
    }
}

/// The shape of a tree under a program.
pub fn shape(program: &Program, tree: &Tree) -> Result<Shape, NoMemory>
    requires { AllByRecursion (Suits program.now) tree.now }
    ensures { IfOk result (λ shape. shape_of program.now (tree_heap tree.now) 0 ≡ Some shape) }
{
    let objects = tree.objects.as_slice();
    let alloc = *tree.objects.allocator();
    emit_all(alloc, program, objects)
}
