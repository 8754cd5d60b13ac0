//! What a path through a method tells, by the lines of the source.

use crate::code::{Act, act_at};
use crate::methods::{Tables, line_of};
use kilim_explain_words::number;
use kilim_pieces::{behind, word};
use kilim_units::NoMemory;
use std::alloc::Global;

/// The places of a path: the numbers of these words, up to one that is none.
pub fn places_of(alloc: Global, words: &[u8]) -> Result<Vec<usize>, NoMemory> {
    let mut places = Vec::new(alloc);
    let mut rest = words;
    for _ in 0..words.len() {
        let Some(place) = number(word(rest)) else {
            break;
        };
        places.push(place)?;
        rest = behind(rest, 1);
    }
    Ok(places)
}

/// The lines of places, none twice in a row.
pub fn lines_of(alloc: Global, tables: &Tables, places: &[usize]) -> Result<Vec<usize>, NoMemory> {
    let mut lines: Vec<usize> = Vec::new(alloc);
    for place in places {
        if let Some(line) = line_of(tables, *place) {
            if lines.last().copied() != Some(line) {
                lines.push(line)?;
            }
        }
    }
    Ok(lines)
}

// What is known of a slot's object on the way.
#[derive(Clone, Copy)]
struct Trace {
    // whether it was loaded, and nothing took it since
    loaded: bool,
    // the place of the last call or store that may have taken it
    given: Option<usize>,
    // the place of the last call or store at all
    last: Option<usize>,
}

fn behind_act(trace: Trace, act: Act, slot: u16, place: usize) -> Trace {
    match act {
        Act::Load(one) => Trace {
            loaded: trace.loaded || one == slot,
            given: trace.given,
            last: trace.last,
        },
        Act::Store(one) => Trace {
            loaded: trace.loaded && one != slot,
            given: if one == slot { None } else { trace.given },
            last: trace.last,
        },
        Act::Reads => Trace {
            loaded: false,
            given: trace.given,
            last: trace.last,
        },
        Act::Gives => Trace {
            loaded: false,
            given: if trace.loaded {
                Some(place)
            } else {
                trace.given
            },
            last: Some(place),
        },
        Act::Other => trace,
    }
}

/// The place at which the object of a slot was given away, or moved, on a path whose last place asks for it again: the last call or store
/// behind a load of the slot; where there is none, since it went under another name, the last call or store.
pub fn given_at(code: &[u8], places: &[usize], slot: u16) -> Option<usize> {
    let mut trace = Trace {
        loaded: false,
        given: None,
        last: None,
    };
    for (i, place) in places.iter().enumerate() {
        if i + 1 < places.len() {
            trace = behind_act(trace, act_at(code, *place), slot, *place);
        }
    }
    match trace.given {
        Some(place) => Some(place),
        None => trace.last,
    }
}
