//! Places where flows meet.

ghost use Rattle.std.specs.Prelude.{◌≡◌};

use crate::machine::{Exit, Moves};
use kilim_units::{NoMemory, no_room};
use std::alloc::Global;

// A place to which one more exit leads.
fn meet(led: &mut [bool], meets: &mut [bool], place: u32) {
    let at = place as usize;
    if at < led.len() && at < meets.len() {
        if led[at] {
            meets[at] = true;
        }
        led[at] = true;
    }
}

fn meet_all(led: &mut [bool], meets: &mut [bool], exits: &[Exit]) {
    for exit in exits {
        if let Some(place) = exit.target() {
            meet(led, meets, place);
        }
    }
}

/// For each place whether more than one exit leads to it. No answer depends on it.
pub fn meets_of<M: Moves>(alloc: Global, machine: &M) -> Result<Vec<bool>, NoMemory> {
    let size = machine.size();
    let Ok(mut led) = vec![in alloc; false; size] else {
        return Err(NoMemory);
    };
    let Ok(mut meets) = vec![in alloc; false; size] else {
        return Err(NoMemory);
    };
    for at in 0..size {
        let Ok(place) = u32::try_from(at) else {
            // room: a place of 2^32
            return Err(no_room());
        };
        let Ok(exits) = machine.exits(place) else {
            return Err(NoMemory);
        };
        meet_all(&mut led, &mut meets, exits.as_slice());
    }
    Ok(meets)
}
