//! Entries that are looked for, and added.

ghost use Rattle.std.specs.Prelude.{◌≡◌, ◌∷◌, [], IfOk};
ghost use Rattle.kilim_class_pool.specs.declared.fault.AddFault.TheVariants as add;
ghost use Rattle.kilim_class_grammar.specs.Reader.{ReadsUnless};
ghost use Rattle.kilim_class_builder.specs.Adding.{class_added, class_by, classes_added, text_added};

use kilim_class_pool::{AddFault, Entry, Pool};
use kilim_units::{Seq, Units};
use std::alloc::{AllocError, Global};

// An ASCII text as units.
fn ascii(alloc: Global, text: &[u8]) -> Result<Units, AllocError>
    ensures { IfOk result (λ units. units ≡ text.now) }
{
    let mut units = Vec::new(alloc);
    for byte in text {
        units.push(u16::from(*byte))?;
    }
    Units::from_vec(alloc, units)
}

/// The index of a text.
pub fn add_units(pool: &mut Pool, units: Units) -> Result<u16, AddFault>
    ensures { ReadsUnless add.Memory (λ index. (index, pool.new)) result (text_added units pool.old) }
{
    pool.add(Entry::Utf8(units))
}

/// The index of an ASCII text.
pub fn add_text(alloc: Global, pool: &mut Pool, text: &[u8]) -> Result<u16, AddFault>
    ensures { ReadsUnless add.Memory (λ index. (index, pool.new)) result (text_added text.now pool.old) }
{
    let units = ascii(alloc, text)?;
    add_units(pool, units)
}

fn class_by(pool: &mut Pool, name: u16) -> Result<u16, AddFault>
    ensures { ReadsUnless add.Memory (λ index. (index, pool.new)) result (class_by name pool.old) }
{
    pool.add(Entry::Class(name))
}

/// The index of the class of a name.
#[tactic(auto, unfolding(crate::specs::Adding::class_added))]
pub fn add_class(pool: &mut Pool, name: Units) -> Result<u16, AddFault>
    ensures { ReadsUnless add.Memory (λ index. (index, pool.new)) result (class_added name pool.old) }
{
    let text = add_units(pool, name)?;
    class_by(pool, text)
}

/// The index of the class of an ASCII name.
pub fn add_ascii_class(alloc: Global, pool: &mut Pool, name: &[u8]) -> Result<u16, AddFault>
    ensures { ReadsUnless add.Memory (λ index. (index, pool.new)) result (class_added name.now pool.old) }
{
    let units = ascii(alloc, name)?;
    add_class(pool, units)
}

/// A list of one index.
pub fn one(alloc: Global, class: u16) -> Result<Seq<u16>, AllocError>
    ensures { IfOk result (λ all. all ≡ class ∷ []) }
{
    let mut all = Seq::new(alloc);
    all.push(class)?;
    Ok(all)
}

/// Classes, in order.
#[tactic(auto, unfolding(crate::specs::Adding::classes_added))]
pub fn add_classes(pool: &mut Pool, names: &[Units]) -> Result<(), AddFault>
    ensures { ReadsUnless add.Memory (λ done. pool.new) result (classes_added names.now pool.old) }
{
    for name in names {
        add_class(pool, name.clone()?)?;
    }
    Ok(())
}
