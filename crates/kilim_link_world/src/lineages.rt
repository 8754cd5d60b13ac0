//! Which classes stand in the lines of others.

ghost use Rattle.std.specs.Prelude.{◌≡◌, ◌<◌, ◌^◌, IfOk, length};
ghost use Rattle.kilim_link_inherited.specs.Roots.{IsRight};
ghost use Rattle.kilim_link_world.specs.Agrees.{each_below};
ghost use Rattle.kilim_link_world.specs.Superclasses.{own_key};

use kilim_link_inherited::{Entry, Inherited};
use kilim_program::ClassId;
use kilim_units::{NoMemory, Seq};
use std::alloc::Global;

// What a class says: its own number.
fn own_key(alloc: Global, number: u32) -> Result<Seq<Entry>, NoMemory>
    ensures { IfOk result (λ entries. entries ≡ own_key number) }
{
    let mut entries: Seq<Entry> = Seq::new(alloc);
    let Ok(()) = entries.push(Entry {
        key: number,
        value: Some(0),
    }) else {
        return Err(NoMemory);
    };
    Ok(entries)
}

// The same of so many classes.
fn own_keys(alloc: Global, count: usize) -> Result<Seq<Seq<Entry>>, NoMemory>
    requires { count < 2 ^ 32 }
    ensures { IfOk result (λ entries. entries ≡ each_below own_key count) }
{
    let mut entries: Seq<Seq<Entry>> = Seq::new(alloc);
    let mut i: u32 = 0;
    while (i as usize) < count {
        let Ok(own) = own_key(alloc, i) else {
            return Err(NoMemory);
        };
        let Ok(()) = entries.push(own) else {
            return Err(NoMemory);
        };
        i += 1;
    }
    Ok(entries)
}

/// Where each class says its own number, by the superclass of each class.
pub fn lineages_of(alloc: Global, ups: &[Option<ClassId>]) -> Result<Inherited, NoMemory>
    requires { length ups.now < 2 ^ 32 }
    ensures { IfOk result (λ it. IsRight ups.now (each_below own_key (length ups.now)) it) }
{
    let Ok(entries) = own_keys(alloc, ups.len()) else {
        return Err(NoMemory);
    };
    Inherited::new(alloc, ups, entries.as_slice())
}
