//! Constants of the pool as values.

ghost use Rattle.std.specs.Prelude.{◌≡◌, IfOk};
ghost use Rattle.std.specs.Option.{option_copied};
ghost use Rattle.kilim_link_spec.specs.Code.{constant_ref};

use kilim_class_pool::{Entry, Pool};
use kilim_link_views::text_of;
use kilim_program::Value;
use kilim_units::{NoMemory, Units};
use std::alloc::Global;

/// The int, the long or the text that an entry is (JVMS 4.7.2).
pub fn constant_ref(
    alloc: Global,
    pool: &Pool,
    entry: Option<&Entry>,
) -> Result<Option<Value>, NoMemory>
    ensures { IfOk result (λ found. found ≡ constant_ref pool.now (option_copied entry.entry)) }
{
    match entry {
        Some(Entry::Integer(n)) => Ok(Some(Value::Int(*n))),
        Some(Entry::Long(n)) => Ok(Some(Value::Long(*n))),
        Some(Entry::String(text)) => {
            Ok(Some(Value::Text(Units::from_slice(alloc, text_of(pool, *text))?)))
        }
        _ => Ok(None),
    }
}
