//! The words of the cases.

use crate::calls::{call_case, held_case, noted_case};
use crate::left::push_asked;
use crate::world::{World, empty};
use kilim_case_text::Text;
use kilim_units::Seq;
use std::alloc::Global;
use std::rt::Files;
use std::sync::Wait;
use std::thread::Threads;

/// How few bytes a narrow sink takes a call.
const FEW: usize = 4;

// Makes calls of the number of the first word fail. Answers the other words.
fn failing<'a>(fails: &mut Seq<u64>, words: &'a [String]) -> Option<&'a [String]> {
    let [number, rest @ ..] = words else {
        return None;
    };
    match number.parse::<u64>() {
        Ok(number) if fails.push(number).is_ok() => Some(rest),
        _ => None,
    }
}

// Sets how many bytes the sink takes a call, by the first word. Answers the other words.
fn taking<'a>(most: &mut usize, words: &'a [String]) -> Option<&'a [String]> {
    let [number, rest @ ..] = words else {
        return None;
    };
    match number.parse::<usize>() {
        Ok(number) => {
            *most = number;
            Some(rest)
        }
        Err(_) => None,
    }
}

// Sets the world by the word of a case and the numbers behind it. Answers the words of the call.
fn set<'a>(word: &str, words: &'a [String], world: &mut World) -> Option<&'a [String]> {
    match word {
        "sink" => {
            world.out.most = FEW;
            failing(&mut world.out.fails, words)
        }
        "folder" | "asked" => failing(&mut world.files.fails, words),
        "front" => match taking(&mut world.out.most, words) {
            Some(words) => failing(&mut world.out.fails, words),
            None => None,
        },
        _ => Some(words),
    }
}

fn push_case<R: Files + Threads + Wait + Sync>(
    text: &mut Text,
    rt: &R,
    alloc: Global,
    word: &str,
    words: &[String],
    world: &mut World,
) {
    match word {
        "call" | "sink" | "folder" => call_case(text, rt, alloc, words, world),
        "asked" => {
            call_case(text, rt, alloc, words, world);
            push_asked(text, world);
        }
        "held" => held_case(text, rt, alloc, words, world),
        "front" => {
            let _ = noted_case(text, rt, alloc, words, world);
        }
        "noted" => {
            let deepest = noted_case(text, rt, alloc, words, world);
            text.word("deepest ");
            text.number(deepest);
            text.word("\n");
        }
        _ => text.lacks(),
    }
}

/// The answer of a case, each line with its line feed: nothing where its words aren't those of a case, a file can't be
/// read, or memory runs out.
pub fn answer<R: Files + Threads + Wait + Sync>(
    rt: &R,
    alloc: Global,
    words: &[String],
) -> Option<Vec<u8>> {
    let mut text = Text::new(alloc);
    let mut world = empty(alloc);
    match words {
        [word, rest @ ..] => match set(word.as_str(), rest, &mut world) {
            Some(rest) => push_case(&mut text, rt, alloc, word.as_str(), rest, &mut world),
            None => text.lacks(),
        },
        _ => text.lacks(),
    }
    text.whole()
}
