//! The order in which trees are made.

ghost use Rattle.std.specs.Prelude.{◌≡◌};
ghost use Rattle.kilim_link_inherited.specs.Inherited.{up_in};

use kilim_program::ClassId;
use kilim_units::{NoMemory, Seq};
use std::alloc::Global;

/// The superclass of a class, none past the end.
pub fn superclass_in(ups: &[Option<ClassId>], class: ClassId) -> Option<ClassId>
    ensures { result ≡ up_in ups.now class }
{
    match ups.get(class.0 as usize) {
        Some(up) => *up,
        None => None,
    }
}

// Whether a class is seen for the first time; never past the end.
fn is_new(seen: &mut Vec<bool>, class: ClassId) -> bool {
    let place = class.0 as usize;
    if place >= seen.len() || seen[place] {
        return false;
    }
    seen[place] = true;
    true
}

// A class, its superclass, and so on up to the first one that was seen.
fn push_unseen(
    ups: &[Option<ClassId>],
    class: ClassId,
    seen: &mut Vec<bool>,
    line: &mut Seq<ClassId>,
) -> Result<(), NoMemory> {
    let mut at = class;
    let mut left = ups.len();
    while left > 0 {
        left -= 1;
        if !is_new(seen, at) {
            return Ok(());
        }
        let Ok(()) = line.push(at) else {
            return Err(NoMemory);
        };
        let Some(up) = superclass_in(ups, at) else {
            return Ok(());
        };
        at = up;
    }
    Ok(())
}

fn add_back(order: &mut Seq<ClassId>, line: &[ClassId]) -> Result<(), NoMemory> {
    let mut left = line.len();
    while left > 0 {
        left -= 1;
        let Ok(()) = order.push(line[left]) else {
            return Err(NoMemory);
        };
    }
    Ok(())
}

// The classes of a class's line that weren't seen, each behind its superclass.
fn push_line(
    alloc: Global,
    ups: &[Option<ClassId>],
    class: ClassId,
    seen: &mut Vec<bool>,
    order: &mut Seq<ClassId>,
) -> Result<(), NoMemory> {
    let mut line = Seq::new(alloc);
    let Ok(()) = push_unseen(ups, class, seen, &mut line) else {
        return Err(NoMemory);
    };
    add_back(order, line.as_slice())
}

fn push_lines(
    alloc: Global,
    ups: &[Option<ClassId>],
    seen: &mut Vec<bool>,
    order: &mut Seq<ClassId>,
) -> Result<(), NoMemory> {
    for place in 0..ups.len() {
        let Ok(number) = u32::try_from(place) else {
            return Ok(());
        };
        let Ok(()) = push_line(alloc, ups, ClassId(number), seen, order) else {
            return Err(NoMemory);
        };
    }
    Ok(())
}

/// Each class once, behind its superclass; of a circle one stands before its superclass.
/// No answer hangs on the order, only time: where a class's tree is made behind its superclass's, it has its own
/// entries put onto that.
pub fn superclasses_first(
    alloc: Global,
    ups: &[Option<ClassId>],
) -> Result<Seq<ClassId>, NoMemory> {
    let mut seen: Vec<bool> = vec![in alloc; false; ups.len()]?;
    let mut order: Seq<ClassId> = Seq::new(alloc);
    match push_lines(alloc, ups, &mut seen, &mut order) {
        Ok(()) => Ok(order),
        Err(fault) => Err(fault),
    }
}
