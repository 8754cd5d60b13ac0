//! Pop, dup and swap forms.

ghost use Rattle.std.specs.Prelude.{◌≡◌, ◌++◌, [], take, drop, IfOk};
ghost use Rattle.kilim_type_spec.specs.Step as type_step;
ghost use Rattle.kilim_isolation_rules.specs.Actions.{form_of};
ghost use Rattle.kilim_isolation_rules.specs.Rules as spec;

use crate::action::Words;
use kilim_program::VType;
use kilim_units::{NoMemory, Seq};
use std::alloc::Global;

fn size(ty: VType) -> usize
    ensures { result ≡ type_step.size ty }
{
    match ty {
        VType::Long => 2,
        VType::Top
        | VType::Int
        | VType::Null
        | VType::UninitThis
        | VType::Uninit(_)
        | VType::Object(_) => 1,
    }
}

// How many items so many words are.
fn items(words: usize, types: &[VType]) -> usize
    ensures { result ≡ spec.items words types.now }
{
    let mut left = words;
    let mut count = 0;
    while left > 0 && count < types.len() {
        left = left.saturating_sub(size(types[count]));
        count += 1;
    }
    count
}

/// The first items of a list, so many or all.
pub fn first<T>(list: &[T], count: usize) -> &[T]
    ensures { result.now ≡ take count list.now }
{
    &list[..count.min(list.len())]
}

/// What stands behind so many items of a list.
pub fn behind<T>(list: &[T], count: usize) -> &[T]
    ensures { result.now ≡ drop count list.now }
{
    &list[count.min(list.len())..]
}

fn copied(
    alloc: Global,
    count: usize,
    passed: usize,
    names: &[Option<usize>],
) -> Result<Seq<Option<usize>>, NoMemory>
    ensures { IfOk result (λ new. new ≡ spec.copied count passed names.now) }
{
    let copied = first(names, count);
    let others = behind(names, count);
    let Ok(mut new) = Vec::from_slice(alloc, copied) else {
        return Err(NoMemory);
    };
    let Ok(()) = new.extend_from_slice(first(others, passed)) else {
        return Err(NoMemory);
    };
    let Ok(()) = new.extend_from_slice(copied) else {
        return Err(NoMemory);
    };
    let Ok(()) = new.extend_from_slice(behind(others, passed)) else {
        return Err(NoMemory);
    };
    Ok(Seq::from_vec(new))
}

fn swapped(alloc: Global, names: &[Option<usize>]) -> Result<Seq<Option<usize>>, NoMemory>
    ensures { IfOk result (λ new. new ≡ spec.shuffled type_step.Swaps [] names.now) }
{
    let Ok(mut new) = Vec::from_slice(alloc, first(behind(names, 1), 1)) else {
        return Err(NoMemory);
    };
    let Ok(()) = new.extend_from_slice(first(names, 1)) else {
        return Err(NoMemory);
    };
    let Ok(()) = new.extend_from_slice(behind(names, 2)) else {
        return Err(NoMemory);
    };
    Ok(Seq::from_vec(new))
}

/// The names on the stack after a pop, dup or swap form, by the types of the stack.
pub fn shuffled(
    alloc: Global,
    words: Words,
    types: &[VType],
    names: &[Option<usize>],
) -> Result<Seq<Option<usize>>, NoMemory>
    ensures { IfOk result (λ new. new ≡ spec.shuffled (form_of words) types.now names.now) }
{
    match words {
        Words::Drops(count) => {
            let Ok(left) = Vec::from_slice(alloc, behind(names, items(count, types))) else {
                return Err(NoMemory);
            };
            Ok(Seq::from_vec(left))
        }
        Words::Copies(count, passed) => {
            let top = items(count, types);
            copied(alloc, top, items(passed, behind(types, top)), names)
        }
        Words::Swaps => swapped(alloc, names),
    }
}
