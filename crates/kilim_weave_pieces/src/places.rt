//! New places.

ghost use Rattle.std.specs.Prelude.{◌≡◌, None, get_or, IfOk};
ghost use Rattle.kilim_weave_pieces.specs.Places.{at_in, block_in};

use kilim_units::{NoMemory, no_room};
use std::marker::Model;

/// New places of old ones, and of resume blocks. Contracts see the tables.
#[derive(Drop)]
pub struct Places {
    pub old: Vec<Option<u32>>,
    pub blocks: Vec<Option<u32>>,
    pub end: u32,
}

impl Model for Places {
    ghost use Rattle.kilim_weave_pieces.specs.Places as parts;

    ghost Value = { parts.Tables };

    ghost view = { λ p. record { old = p.old.items; blocks = p.blocks.items; end = p.end } };
}

fn found(table: &[Option<u32>], number: u32) -> Option<u32>
    ensures { result ≡ get_or table.now number None }
{
    match table.get(number as usize) {
        Some(place) => *place,
        None => None,
    }
}

impl Places {
    /// The new place of an old one. Want of memory comes only where it has none.
    pub fn at(&self, place: u32) -> Result<u32, NoMemory>
        ensures { IfOk result (λ q. q ≡ at_in self.now place) }
    {
        match found(self.old.as_slice(), place) {
            Some(new) => Ok(new),
            None => match self.end.checked_add(place) {
                Some(new) => Ok(new),
                // room: a place of 2^32
                None => Err(no_room()),
            },
        }
    }

    /// The place of a resume block.
    pub fn block(&self, number: u32) -> u32
        ensures { result ≡ block_in self.now number }
    {
        match found(self.blocks.as_slice(), number) {
            Some(place) => place,
            None => 0,
        }
    }
}
