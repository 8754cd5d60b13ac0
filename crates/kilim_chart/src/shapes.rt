//! The list of shapes that is drawn.

ghost use Rattle.std.specs.Prelude.{◌≡◌, ◌<◌, ◌++◌, ◌∷◌, [], ℕ, List, length, slice_get, IfOk, OnOk, Some, if◌then◌else◌};
ghost use Rattle.std.specs.Option.{option_to_list};
ghost use Rattle.kilim_chart.specs.declared.rows.MessageName.{MessageName as Name};
ghost use Rattle.kilim_chart.specs.declared.rows.Row.{Row as Drawn};
ghost use Rattle.kilim_chart.specs.Shapes.{arrows_at, is_put_of, put_of, shapes_at, shapes_of};
ghost use Rattle.kilim_chart.specs.Places.{place_in, key_of};
ghost use Rattle.kilim_chart.specs.declared.shapes.Shape.TheVariants.{Mark};

use crate::rows::{Deed, MessageName, Row};
use kilim_units::{NoMemory, Seq};
use std::alloc::Global;
use std::collections::BTreeMap;

/// What is drawn. Rows are counted from 0.
#[derive(Clone, Copy)]
pub enum Shape {
    /// The mark of a row, in the column of its task.
    Mark(usize),
    /// An arrow from the row of a put to the row of its take.
    Arrow(usize, usize),
    /// An arrow from the row of a start to the column of the task that it starts.
    Begins(usize, u32),
}

fn key_of(name: MessageName) -> ((u32, u32), u64)
    ensures { result ≡ key_of name }
{
    ((name.mailbox.task, name.mailbox.number), name.number)
}

// The row of the last put of a message.
fn place_in(puts: &BTreeMap<((u32, u32), u64), usize>, name: MessageName) -> Option<usize>
    ensures { result ≡ place_in puts.now name }
{
    puts.get(&key_of(name)).copied()
}

// Notes the row of a put.
fn note(
    puts: &mut BTreeMap<((u32, u32), u64), usize>,
    deed: Deed,
    row: usize,
) -> Result<(), NoMemory>
    ensures { OnOk result ((m : Name) → place_in puts.new m ≡ (if is_put_of m deed then Some row else place_in puts.old m)) }
{
    match deed {
        Deed::Put(name) => {
            let Ok(_) = puts.insert(key_of(name), row) else {
                return Err(NoMemory);
            };
            Ok(())
        }
        _ => Ok(()),
    }
}

fn arrow_at(puts: &BTreeMap<((u32, u32), u64), usize>, deed: Deed, row: usize) -> Option<Shape>
    ensures { option_to_list result ≡ arrows_at (place_in puts.now) row deed }
{
    match deed {
        Deed::Take(name) => match place_in(puts, name) {
            Some(put) => Some(Shape::Arrow(put, row)),
            None => None,
        },
        Deed::Start(task) => Some(Shape::Begins(row, task)),
        _ => None,
    }
}

fn push_arrow(shapes: &mut Seq<Shape>, arrow: Option<Shape>) -> Result<(), NoMemory>
    ensures { OnOk result (shapes.new ≡ shapes.old ++ option_to_list arrow) }
{
    match arrow {
        Some(arrow) => match shapes.push(arrow) {
            Ok(()) => Ok(()),
            Err(_) => Err(NoMemory),
        },
        None => Ok(()),
    }
}

// Adds the shapes of the next row, and notes its put.
fn push_shapes(
    shapes: &mut Seq<Shape>,
    puts: &mut BTreeMap<((u32, u32), u64), usize>,
    deed: Deed,
    row: usize,
) -> Result<(), NoMemory>
    ensures shapes { OnOk result (shapes.new ≡ shapes.old ++ (Mark row ∷ arrows_at (place_in puts.old) row deed)) }
    ensures puts { OnOk result ((m : Name) → place_in puts.new m ≡ (if is_put_of m deed then Some row else place_in puts.old m)) }
{
    let Ok(()) = shapes.push(Shape::Mark(row)) else {
        return Err(NoMemory);
    };
    let Ok(()) = push_arrow(shapes, arrow_at(puts, deed, row)) else {
        return Err(NoMemory);
    };
    note(puts, deed, row)
}

fn row_at(rows: &[Row], at: usize) -> Row
    requires { at < length rows.now }
    ensures { slice_get rows.now at ≡ Some result }
{
    rows[at]
}

/// The shapes of rows, row by row: the mark of each, an arrow to each take from the last put of the message before it, and an arrow from
/// each start to its task.
pub fn shapes_of(alloc: Global, rows: &[Row]) -> Result<Seq<Shape>, NoMemory>
    ensures { IfOk result (λ shapes. shapes ≡ shapes_of rows.now) }
{
    let mut puts = BTreeMap::new(alloc);
    let mut shapes = Seq::new(alloc);
    for at in 0..rows.len() {
        let row = row_at(rows, at);
        let Ok(()) = push_shapes(&mut shapes, &mut puts, row.deed, at) else {
            return Err(NoMemory);
        };
    }
    Ok(shapes)
}
