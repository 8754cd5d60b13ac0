//! Exception tables in a program.

ghost use Rattle.std.specs.Prelude.{◌≡◌, IfOk};
ghost use Rattle.kilim_link_spec.specs.Linked.{catch_of, handler_in, handlers_in};

use kilim_class_attributes::ExceptionHandler;
use kilim_class_pool::Pool;
use kilim_link_views::class_text;
use kilim_link_world::World;
use kilim_program::{ClassId, Handler};
use kilim_units::{NoMemory, Seq, Units};
use std::alloc::Global;

// The class that an entry names, where it is there; an entry with index 0 catches everything.
fn catch_of(
    alloc: Global,
    world: &World,
    pool: &Pool,
    index: u16,
) -> Result<Option<Option<ClassId>>, NoMemory>
    ensures { IfOk result (λ catch. catch ≡ catch_of world.now pool.now index) }
{
    if index == 0 {
        return Ok(Some(None));
    }
    let Ok(name) = Units::from_slice(alloc, class_text(pool, index)) else {
        return Err(NoMemory);
    };
    match world.class_of(&name) {
        Some(class) => Ok(Some(Some(class))),
        None => Ok(None),
    }
}

fn handler_in(
    alloc: Global,
    world: &World,
    pool: &Pool,
    row: ExceptionHandler,
) -> Result<Option<Handler>, NoMemory>
    ensures { IfOk result (λ handler. handler ≡ handler_in world.now pool.now row) }
{
    match catch_of(alloc, world, pool, row.catch_type) {
        Ok(Some(catch)) => Ok(Some(Handler {
            start: u32::from(row.start_pc),
            end: u32::from(row.end_pc),
            at: u32::from(row.handler_pc),
            catch,
        })),
        Ok(None) => Ok(None),
        Err(fault) => Err(fault),
    }
}

/// The entries of an exception table in a program (JVMS 4.7.3), where what they catch is there; places are in bytes of
/// the code.
pub fn handlers_in(
    alloc: Global,
    world: &World,
    pool: &Pool,
    rows: &[ExceptionHandler],
) -> Result<Option<Seq<Handler>>, NoMemory>
    ensures { IfOk result (λ handlers. handlers ≡ handlers_in world.now pool.now rows.now) }
{
    let mut handlers = Seq::new(alloc);
    for row in rows {
        match handler_in(alloc, world, pool, *row) {
            Ok(Some(handler)) => {
                let Ok(()) = handlers.push(handler) else {
                    return Err(NoMemory);
                };
            }
            Ok(None) => return Ok(None),
            Err(fault) => return Err(fault),
        }
    }
    Ok(Some(handlers))
}
