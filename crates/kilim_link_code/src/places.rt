//! Targets of jumps and switches, as places.

ghost use Rattle.std.specs.Prelude.{◌≡◌, IfOk};
ghost use Rattle.kilim_link_spec.specs.Types.{each_of};
ghost use Rattle.kilim_link_spec.specs.Code.{place_of, pair_in};

use kilim_units::{NoMemory, Seq, no_room};
use std::alloc::Global;

/// A target as a place in bytes of the code, none where it is before the code. One of 4,294,967,296 or more, which no
/// code has, is answered as want of memory.
pub fn place_of(to: &i64) -> Result<Option<u32>, NoMemory>
    ensures { IfOk result (λ place. place ≡ place_of to.now) }
{
    if *to < 0 {
        return Ok(None);
    }
    match u32::try_from(*to) {
        Ok(place) => Ok(Some(place)),
        // room: code of 2^32 bytes
        Err(_) => Err(no_room()),
    }
}

/// All targets as places, where each is one.
pub fn places_of(alloc: Global, targets: &[i64]) -> Result<Option<Seq<u32>>, NoMemory>
    ensures { IfOk result (λ places. places ≡ each_of place_of targets.now) }
{
    let mut places = Seq::new(alloc);
    for to in targets {
        match place_of(to) {
            Ok(Some(place)) => {
                let Ok(()) = places.push(place) else {
                    return Err(NoMemory);
                };
            }
            Ok(None) => return Ok(None),
            Err(fault) => return Err(fault),
        }
    }
    Ok(Some(places))
}

// A match with its target as a place.
fn pair_in(pair: &(i32, i64)) -> Result<Option<(i32, u32)>, NoMemory>
    ensures { IfOk result (λ found. found ≡ pair_in pair.now) }
{
    match place_of(&pair.1) {
        Ok(Some(place)) => Ok(Some((pair.0, place))),
        Ok(None) => Ok(None),
        Err(fault) => Err(fault),
    }
}

/// All matches with their targets as places, where each target is one.
pub fn pairs_of(alloc: Global, pairs: &[(i32, i64)]) -> Result<Option<Seq<(i32, u32)>>, NoMemory>
    ensures { IfOk result (λ found. found ≡ each_of pair_in pairs.now) }
{
    let mut found = Seq::new(alloc);
    for pair in pairs {
        match pair_in(pair) {
            Ok(Some(made)) => {
                let Ok(()) = found.push(made) else {
                    return Err(NoMemory);
                };
            }
            Ok(None) => return Ok(None),
            Err(fault) => return Err(fault),
        }
    }
    Ok(Some(found))
}
