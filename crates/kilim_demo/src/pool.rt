//! Constant pools.

ghost use Rattle.std.specs.Prelude.{◌≡◌, ◌++◌, ◌∷◌, [], map, IfOk, OnOk};
ghost use Rattle.kilim_class_pool.specs.declared.entry.Entry.TheVariants.{Utf8};
ghost use Rattle.kilim_demo.specs.Constants.{entry_of};

use kilim_class_pool::{Entry, Pool};
use kilim_units::{NoMemory, Units, unmet};
use std::alloc::Global;

/// An entry, as it stands in the code. Numbers are indices of the same pool.
#[derive(Clone, Copy)]
pub enum Constant<'a> {
    /// An ASCII text.
    Text(&'a [u8]),
    Class(u16),
    Field(u16, u16),
    Method(u16, u16),
    NameAndType(u16, u16),
}

fn push_ascii(units: &mut Vec<u16>, ascii: &[u8]) -> Result<(), NoMemory>
    ensures { OnOk result (units.new.items ≡ units.old.items ++ ascii.now) }
{
    for byte in ascii {
        let Ok(()) = units.push(u16::from(*byte)) else {
            return Err(NoMemory);
        };
    }
    Ok(())
}

// The units of an ASCII text.
fn units(alloc: Global, ascii: &[u8]) -> Result<Units, NoMemory>
    ensures { IfOk result (λ text. text ≡ ascii.now) }
{
    let mut units = Vec::new(alloc);
    let Ok(()) = push_ascii(&mut units, ascii) else {
        return Err(NoMemory);
    };
    match Units::from_vec(alloc, units) {
        Ok(text) => Ok(text),
        Err(_) => Err(NoMemory),
    }
}

fn text_of(alloc: Global, ascii: &[u8]) -> Result<Entry, NoMemory>
    ensures { IfOk result (λ entry. entry ≡ Utf8 ascii.now) }
{
    let units = units(alloc, ascii)?;
    Ok(Entry::Utf8(units))
}

fn entry_of(alloc: Global, constant: &Constant<'_>) -> Result<Entry, NoMemory>
    ensures { IfOk result (λ entry. entry ≡ entry_of constant.now) }
{
    match *constant {
        Constant::Text(ascii) => text_of(alloc, ascii),
        Constant::Class(name) => Ok(Entry::Class(name)),
        Constant::Field(class, member) => Ok(Entry::Fieldref(class, member)),
        Constant::Method(class, member) => Ok(Entry::Methodref(class, member)),
        Constant::NameAndType(name, descriptor) => Ok(Entry::NameAndType(name, descriptor)),
    }
}

// Adds an entry behind the others. No entry of the demo stands twice: one that did would be answered as want of memory.
#[tactic(auto, using(crate::proofs::Added::appended))]
fn add(pool: &mut Pool, entry: Entry) -> Result<(), NoMemory>
    ensures { OnOk result (pool.new ≡ pool.old ++ entry ∷ []) }
{
    let before = pool.count();
    match pool.add(entry) {
        Ok(_) => {
            if pool.count() == before {
                // unmet: the entries of the demo's pools are different
                Err(unmet())
            } else {
                Ok(())
            }
        }
        Err(_) => Err(NoMemory),
    }
}

fn add_constant(alloc: Global, pool: &mut Pool, constant: &Constant<'_>) -> Result<(), NoMemory>
    ensures { OnOk result (pool.new ≡ pool.old ++ entry_of constant.now ∷ []) }
{
    let entry = entry_of(alloc, constant)?;
    add(pool, entry)
}

/// Adds entries behind the others, in their order.
pub fn add_all(alloc: Global, pool: &mut Pool, constants: &[Constant<'_>]) -> Result<(), NoMemory>
    ensures { OnOk result (pool.new ≡ pool.old ++ map entry_of constants.now) }
{
    for constant in constants {
        let Ok(()) = add_constant(alloc, pool, constant) else {
            return Err(NoMemory);
        };
    }
    Ok(())
}

/// Adds a text behind the others.
pub fn add_text(alloc: Global, pool: &mut Pool, ascii: &[u8]) -> Result<(), NoMemory>
    ensures { OnOk result (pool.new ≡ pool.old ++ Utf8 ascii.now ∷ []) }
{
    let text = text_of(alloc, ascii)?;
    add(pool, text)
}
