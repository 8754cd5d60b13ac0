//! What classes say, by numbers in place of names.

ghost use Rattle.std.specs.Prelude.{IfOk, OnOk};
ghost use Rattle.kilim_link_inherited.specs.Numbers.{number_at, Numbered, Keeps};
ghost use Rattle.kilim_link_inherited.specs.Keyed.{Keyed, AllKeyed};

use crate::said::Said;
use crate::{Entry, Numbers};
use kilim_units::{NoMemory, Seq};
use std::alloc::Global;

/// What a class says; its names get numbers where they have none.
pub fn entries_of(
    alloc: Global,
    numbers: &mut Numbers,
    said: &[Said],
) -> Result<Seq<Entry>, NoMemory>
    requires { Numbered numbers.old.places numbers.old.next }
    ensures keyed { IfOk result (λ entries. Keyed (number_at numbers.new.places) said.now entries) }
    ensures kept { OnOk result (Keeps (number_at numbers.old.places) (number_at numbers.new.places)) }
    ensures numbered { OnOk result (Numbered numbers.new.places numbers.new.next) }
{
    let mut entries: Seq<Entry> = Seq::new(alloc);
    for one in said {
        let Ok(key) = numbers.add(&one.signature) else {
            return Err(NoMemory);
        };
        let value = one.value;
        let Ok(()) = entries.push(Entry { key, value }) else {
            return Err(NoMemory);
        };
    }
    Ok(entries)
}

/// The same of each class.
pub fn all_entries(
    alloc: Global,
    numbers: &mut Numbers,
    said: &[Seq<Said>],
) -> Result<Seq<Seq<Entry>>, NoMemory>
    requires { Numbered numbers.old.places numbers.old.next }
    ensures keyed { IfOk result (λ entries. AllKeyed (number_at numbers.new.places) said.now entries) }
    ensures numbered { OnOk result (Numbered numbers.new.places numbers.new.next) }
{
    let mut entries: Seq<Seq<Entry>> = Seq::new(alloc);
    for one in said {
        let Ok(of_one) = entries_of(alloc, numbers, one.as_slice()) else {
            return Err(NoMemory);
        };
        let Ok(()) = entries.push(of_one) else {
            return Err(NoMemory);
        };
    }
    Ok(entries)
}
