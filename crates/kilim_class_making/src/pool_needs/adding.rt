//! Entries that are added at the end.

ghost use Rattle.std.specs.Prelude.{◌≡◌, ◌∷◌, ◌++◌, [], true, Some, None, OnOk};
ghost use Rattle.kilim_class_making.specs.pool_needs.Adding.{Test, class_behind, found, text_index, with_call, with_class, with_member, with_method, with_need, with_needs, with_pair, with_ref, with_text};

use crate::pool_needs::lookup::{class_index, pair_index, ref_index, text_index};
use crate::pool_needs::need::Need;
use kilim_class_pool::{Entry, Pool};
use kilim_units::{NoMemory, Units};

// Appends an entry for which a search found none. A pool without room for it is answered as want of memory.
fn append(pool: &mut Pool, entry: Entry) -> Result<(), NoMemory>
    ensures { OnOk result ((test : Test) → found test pool.old ≡ None → test (Some entry) ≡ true → pool.new ≡ pool.old ++ entry ∷ []) }
{
    match pool.add(entry) {
        Ok(_) => Ok(()),
        Err(_) => Err(NoMemory),
    }
}

fn with_text(pool: &mut Pool, units: &Units) -> Result<(), NoMemory>
    ensures { OnOk result (pool.new ≡ with_text units.now pool.old) }
{
    if text_index(pool, units) != 0 {
        return Ok(());
    }
    let Ok(text) = units.clone() else {
        return Err(NoMemory);
    };
    append(pool, Entry::Utf8(text))
}

fn with_pair(pool: &mut Pool, name: u16, descriptor: u16) -> Result<(), NoMemory>
    ensures { OnOk result (pool.new ≡ with_pair name descriptor pool.old) }
{
    if pair_index(pool, name, descriptor) != 0 {
        return Ok(());
    }
    append(pool, Entry::NameAndType(name, descriptor))
}

fn with_ref(pool: &mut Pool, class: u16, member: u16) -> Result<(), NoMemory>
    ensures { OnOk result (pool.new ≡ with_ref class member pool.old) }
{
    if ref_index(pool, class, member) != 0 {
        return Ok(());
    }
    append(pool, Entry::Methodref(class, member))
}

// A class whose name is there.
fn class_behind(pool: &mut Pool, name: &Units) -> Result<(), NoMemory>
    requires { text_index pool.old name.now ≡ 0 → ⊥ }
    ensures { OnOk result (pool.new ≡ class_behind name.now pool.old) }
{
    if class_index(pool, name) != 0 {
        return Ok(());
    }
    let text = text_index(pool, name);
    append(pool, Entry::Class(text))
}

fn with_class(pool: &mut Pool, name: &Units) -> Result<(), NoMemory>
    ensures { OnOk result (pool.new ≡ with_class name.now pool.old) }
{
    if class_index(pool, name) != 0 {
        return Ok(());
    }
    let Ok(()) = with_text(pool, name) else {
        return Err(NoMemory);
    };
    class_behind(pool, name)
}

fn with_member(pool: &mut Pool, class: u16, name: u16, descriptor: u16) -> Result<(), NoMemory>
    ensures { OnOk result (pool.new ≡ with_member class name descriptor pool.old) }
{
    let Ok(()) = with_pair(pool, name, descriptor) else {
        return Err(NoMemory);
    };
    let pair = pair_index(pool, name, descriptor);
    with_ref(pool, class, pair)
}

fn with_call(pool: &mut Pool, class: u16, name: u16, descriptor: &Units) -> Result<(), NoMemory>
    ensures { OnOk result (pool.new ≡ with_call class name descriptor.now pool.old) }
{
    let Ok(()) = with_text(pool, descriptor) else {
        return Err(NoMemory);
    };
    let text = text_index(pool, descriptor);
    with_member(pool, class, name, text)
}

fn with_method(
    pool: &mut Pool,
    owner: &Units,
    name: &Units,
    descriptor: &Units,
) -> Result<(), NoMemory>
    ensures { OnOk result (pool.new ≡ with_method owner.now name.now descriptor.now pool.old) }
{
    let Ok(()) = with_class(pool, owner) else {
        return Err(NoMemory);
    };
    let Ok(()) = with_text(pool, name) else {
        return Err(NoMemory);
    };
    let class = class_index(pool, owner);
    let text = text_index(pool, name);
    with_call(pool, class, text, descriptor)
}

#[tactic(auto, unfolding(crate::specs::pool_needs::Adding::with_need))]
fn with_need(pool: &mut Pool, need: &Need) -> Result<(), NoMemory>
    ensures { OnOk result (pool.new ≡ with_need pool.old need.now) }
{
    match need {
        Need::AText(units) => with_text(pool, units),
        Need::AClass(name) => with_class(pool, name),
        Need::AMethod(owner, name, descriptor) => with_method(pool, owner, name, descriptor),
        Need::ACall(class, name, descriptor) => with_call(pool, *class, *name, descriptor),
    }
}

/// Adds what is needed at the end, in this order: what isn't there yet, and what an entry refers to before it. Entries that
/// were there keep their indices.
///
/// A pool whose count would pass 65,535 is answered as want of memory: who must not see that asks before how many entries there
/// may be. After a refusal the pool may have further entries.
#[tactic(auto, unfolding(crate::specs::pool_needs::Adding::with_needs))]
pub fn with_needs(pool: &mut Pool, needs: &[Need]) -> Result<(), NoMemory>
    ensures { OnOk result (pool.new ≡ with_needs pool.old needs.now) }
{
    for need in needs {
        let Ok(()) = with_need(pool, need) else {
            return Err(NoMemory);
        };
    }
    Ok(())
}
