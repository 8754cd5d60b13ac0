//! Which entries may name which.

ghost use Rattle.std.specs.Prelude.{◌≡◌, ◌+◌, ◌<◌, ◌^◌, IfSome};
ghost use Rattle.std.specs.Option.{option_copied};
ghost use Rattle.kilim_class_pool.specs.Entries.{entry_at, is_utf8, is_class, is_name_and_type, is_fieldref, is_methodref, is_interface_methodref, is_handled, is_member, refers_well, is_bad, first_bad};

use crate::entry::Entry;
use crate::pool::Pool;

fn is_utf8(entry: Option<&Entry>) -> bool
    ensures { result ≡ is_utf8 (option_copied entry.entry) }
{
    matches!(entry, Some(Entry::Utf8(_)))
}

fn is_class(entry: Option<&Entry>) -> bool
    ensures { result ≡ is_class (option_copied entry.entry) }
{
    matches!(entry, Some(Entry::Class(_)))
}

fn is_name_and_type(entry: Option<&Entry>) -> bool
    ensures { result ≡ is_name_and_type (option_copied entry.entry) }
{
    matches!(entry, Some(Entry::NameAndType(_, _)))
}

fn is_fieldref(entry: Option<&Entry>) -> bool
    ensures { result ≡ is_fieldref (option_copied entry.entry) }
{
    matches!(entry, Some(Entry::Fieldref(_, _)))
}

fn is_methodref(entry: Option<&Entry>) -> bool
    ensures { result ≡ is_methodref (option_copied entry.entry) }
{
    matches!(entry, Some(Entry::Methodref(_, _)))
}

fn is_interface_methodref(entry: Option<&Entry>) -> bool
    ensures { result ≡ is_interface_methodref (option_copied entry.entry) }
{
    matches!(entry, Some(Entry::InterfaceMethodref(_, _)))
}

fn is_handled(kind: u8, named: Option<&Entry>) -> bool
    ensures { result ≡ is_handled kind (option_copied named.entry) }
{
    if kind == 1 || kind == 2 || kind == 3 || kind == 4 {
        is_fieldref(named)
    } else if kind == 5 || kind == 8 {
        is_methodref(named)
    } else if kind == 6 || kind == 7 {
        is_methodref(named) || is_interface_methodref(named)
    } else if kind == 9 {
        is_interface_methodref(named)
    } else {
        false
    }
}

fn is_member(pool: &Pool, class: u16, member: u16) -> bool
    ensures { result ≡ is_member pool.now class member }
{
    is_class(pool.entry(class)) && is_name_and_type(pool.entry(member))
}

#[tactic(auto, unfolding(crate::specs::Entries::refers_well))]
fn refers_well(pool: &Pool, entry: &Entry) -> bool
    ensures { result ≡ refers_well pool.now entry.now }
{
    match entry {
        Entry::Class(name) | Entry::String(name) | Entry::MethodType(name) => {
            is_utf8(pool.entry(*name))
        }
        Entry::Fieldref(class, member)
        | Entry::Methodref(class, member)
        | Entry::InterfaceMethodref(class, member) => is_member(pool, *class, *member),
        Entry::NameAndType(name, descriptor) => {
            is_utf8(pool.entry(*name)) && is_utf8(pool.entry(*descriptor))
        }
        Entry::MethodHandle(kind, named) => is_handled(*kind, pool.entry(*named)),
        Entry::InvokeDynamic(_, member) => is_name_and_type(pool.entry(*member)),
        Entry::Utf8(_) | Entry::Integer(_) | Entry::Float(_) | Entry::Long(_) | Entry::Double(_) =>
            true,
    }
}

fn is_bad(pool: &Pool, slot: &Option<Entry>) -> bool
    ensures { result ≡ is_bad pool.now slot.now }
{
    match slot {
        Some(entry) => !refers_well(pool, entry),
        None => false,
    }
}

// The place, from 0, of the first entry that refers to another kind of entry than it has to, or to none.
#[tactic(auto, unfolding(crate::specs::Entries::first_bad))]
pub fn first_bad(pool: &Pool) -> Option<usize>
    ensures first { result ≡ first_bad pool.now }
    ensures place { IfSome result (λ place. place + 1 < 2 ^ 16) }
{
    pool.slots().iter().position(|slot| is_bad(pool, slot))
}
