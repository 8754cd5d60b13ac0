//! How long instructions are at a place.

ghost use Rattle.std.specs.Prelude.{◌≡◌, ◌+◌, IfOk};
ghost use Rattle.kilim_program.specs.Lengths.{switch_padding};
ghost use Rattle.kilim_weave_pieces.specs.Items.{size_of};

use kilim_units::{NoMemory, no_room};
use kilim_weave_code::Size;

// The zeros behind the number of a switch at a place.
fn switch_padding(at: u32) -> u32
    ensures { result ≡ switch_padding at }
{
    (4 - (at % 4 + 1) % 4) % 4
}

fn length_of(at: u32, size: Size) -> u64
    ensures { result ≡ size_of size at }
{
    match size {
        Size::Fixed(n) => u64::from(n),
        Size::Table(targets) => 13 + (u64::from(switch_padding(at)) + 4 * u64::from(targets)),
        Size::Lookup(pairs) => 9 + (u64::from(switch_padding(at)) + 8 * u64::from(pairs)),
    }
}

/// The place behind an instruction. Want of memory comes only where that is 2^32 or more.
pub fn place_behind(at: u32, size: Size) -> Result<u32, NoMemory>
    ensures { IfOk result (λ q. q ≡ at + size_of size at) }
{
    let length = length_of(at, size);
    let Some(behind) = u64::from(at).checked_add(length) else {
        // room: a place of 2^64
        return Err(no_room());
    };
    match u32::try_from(behind) {
        Ok(next) => Ok(next),
        // room: a place of 2^32
        Err(_) => Err(no_room()),
    }
}
