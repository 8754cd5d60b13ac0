//! Indices of the constant pool.

ghost use Rattle.std.specs.Prelude.{◌≡◌};
ghost use Rattle.kilim_class_grammar.specs.Reader.{Reads};
ghost use Rattle.kilim_class_attributes.specs.parts.Indices.{entry_is, has_kind, index_at};

use crate::parts::fault::AttributeFault;
use kilim_class_grammar::u16_at;
use kilim_class_pool::{Entry, Pool};

/// What kind of entry an index has to name.
#[derive(Clone, Copy)]
pub enum EntryKind {
    /// A Utf8.
    Text,
    /// A Class.
    Class,
    /// A Class, or index 0 for none (JVMS 4.7.3, `catch_type`).
    CatchType,
    /// An Integer, Float, Long, Double or String (JVMS 4.7.2).
    Constant,
    /// An Integer.
    Integer,
    /// A Float.
    Float,
    /// A Long.
    Long,
    /// A Double.
    Double,
}

fn entry_is(kind: EntryKind, entry: &Entry) -> bool
    ensures { result ≡ entry_is kind entry.now }
{
    match kind {
        EntryKind::Text => matches!(entry, Entry::Utf8(_)),
        EntryKind::Class | EntryKind::CatchType => matches!(entry, Entry::Class(_)),
        EntryKind::Constant => matches!(
            entry,
            Entry::Integer(_)
                | Entry::Float(_)
                | Entry::Long(_)
                | Entry::Double(_)
                | Entry::String(_)
        ),
        EntryKind::Integer => matches!(entry, Entry::Integer(_)),
        EntryKind::Float => matches!(entry, Entry::Float(_)),
        EntryKind::Long => matches!(entry, Entry::Long(_)),
        EntryKind::Double => matches!(entry, Entry::Double(_)),
    }
}

// Whether an index names an entry of a kind.
#[tactic(auto, unfolding(crate::specs::parts::Indices::has_kind))]
fn has_kind(pool: &Pool, kind: EntryKind, index: u16) -> bool
    ensures { result ≡ has_kind pool.now kind index }
{
    if index == 0 {
        return kind == EntryKind::CatchType;
    }
    match pool.entry(index) {
        Some(entry) => entry_is(kind, entry),
        None => false,
    }
}

/// An index at the front of bytes, which has to name an entry of a kind, and the bytes behind it: `cut` where
/// fewer than two bytes are there, BadIndex where it names none of that kind.
#[tactic(auto, unfolding(crate::specs::parts::Indices::index_at))]
pub fn index_at<'a>(
    pool: &Pool,
    kind: EntryKind,
    cut: AttributeFault,
    bytes: &'a [u8],
) -> Result<(u16, &'a [u8]), AttributeFault>
    ensures { Reads (λ x. (x.0, x.1.now)) result (index_at pool.now kind cut bytes.now) }
{
    match u16_at(cut, bytes) {
        Ok((index, rest)) => {
            if has_kind(pool, kind, index) {
                Ok((index, rest))
            } else {
                Err(AttributeFault::BadIndex(index))
            }
        }
        Err(fault) => Err(fault),
    }
}
