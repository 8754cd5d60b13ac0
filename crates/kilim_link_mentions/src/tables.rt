//! What exception tables name.

ghost use Rattle.std.specs.Prelude.{◌≡◌, ◌++◌, OnOk};
ghost use Rattle.std.specs.List.{flat_map};
ghost use Rattle.std.specs.Option.{option_copied};
ghost use Rattle.kilim_link_spec.specs.Mentions.{mentions_of_row, rows_if};

use crate::descriptors::named_by;
use kilim_class_attributes::{Code, ExceptionHandler};
use kilim_class_pool::Pool;
use kilim_link_spec::Mention;
use kilim_link_views::class_text;
use kilim_units::{NoMemory, Seq};
use std::alloc::Global;

fn push_row(
    alloc: Global,
    into: &mut Seq<Mention>,
    pool: &Pool,
    row: ExceptionHandler,
) -> Result<(), NoMemory>
    ensures { OnOk result (into.new ≡ into.old ++ mentions_of_row pool.now row) }
{
    if row.catch_type == 0 {
        return Ok(());
    }
    let Ok(class) = named_by(alloc, class_text(pool, row.catch_type)) else {
        return Err(NoMemory);
    };
    let Ok(()) = into.push(Mention::OfClass(class)) else {
        return Err(NoMemory);
    };
    Ok(())
}

fn push_each_row(
    alloc: Global,
    into: &mut Seq<Mention>,
    pool: &Pool,
    rows: &[ExceptionHandler],
) -> Result<(), NoMemory>
    ensures { OnOk result (into.new ≡ into.old ++ flat_map (mentions_of_row pool.now) rows.now) }
{
    for row in rows {
        let Ok(()) = push_row(alloc, into, pool, *row) else {
            return Err(NoMemory);
        };
    }
    Ok(())
}

/// Appends the classes that the entries of an exception table catch, where that isn't everything (JVMS 4.7.3).
pub fn push_rows(
    alloc: Global,
    into: &mut Seq<Mention>,
    pool: &Pool,
    code: Option<&Code>,
) -> Result<(), NoMemory>
    ensures { OnOk result (into.new ≡ into.old ++ flat_map (mentions_of_row pool.now) (rows_if (option_copied code.entry))) }
{
    match code {
        None => Ok(()),
        Some(code) => push_each_row(alloc, into, pool, code.exception_table.as_slice()),
    }
}
