//! What a file holds.

use std::alloc::Global;
use std::fs::File;
use std::io::Read;
use std::rt::Files;

/// Reads a file behind the bytes; whether that was possible.
pub fn read_file<R: Files>(rt: &R, name: &str, bytes: &mut Vec<u8>) -> bool {
    match File::open(rt, name) {
        Ok(mut file) => file.read_to_end(bytes).is_ok(),
        Err(_) => false,
    }
}

// Makes a change with a byte: `AT=BYTE` or `more=BYTE`.
fn change_byte(bytes: &mut Vec<u8>, what: &str, number: usize) -> bool {
    let Ok(byte) = u8::try_from(number) else {
        return false;
    };
    if what == "more" {
        return bytes.push(byte).is_ok();
    }
    let Ok(at) = what.parse::<usize>() else {
        return false;
    };
    match bytes.get_mut(at) {
        Some(place) => {
            *place = byte;
            true
        }
        None => false,
    }
}

// Makes a change: `AT=BYTE`, `cut=LEN`, `grow=LEN` or `more=BYTE`; whether that was possible.
fn change(bytes: &mut Vec<u8>, what: &str, value: &str) -> bool {
    let Ok(number) = value.parse::<usize>() else {
        return false;
    };
    match what {
        "cut" => {
            bytes.truncate(number);
            true
        }
        "grow" => bytes.resize(number, 0).is_ok(),
        _ => change_byte(bytes, what, number),
    }
}

fn change_all(bytes: &mut Vec<u8>, changes: &str) -> bool {
    for part in changes.split(',') {
        let Some((what, value)) = part.split_once('=') else {
            return false;
        };
        if !change(bytes, what, value) {
            return false;
        }
    }
    true
}

fn read_changed<R: Files>(rt: &R, word: &str, bytes: &mut Vec<u8>) -> bool {
    match word.split_once(',') {
        Some((name, changes)) => read_file(rt, name, bytes) && change_all(bytes, changes),
        None => read_file(rt, word, bytes),
    }
}

/// What a file holds, after changes. The word is its name, and behind commas each change, in order: `AT=BYTE` puts a byte
/// at a place counted from 0, `cut=LEN` leaves so many bytes, `grow=LEN` adds zeros up to so many, and `more=BYTE` adds a
/// byte. Nothing where the file can't be read, or a change can't be made.
pub fn changed<R: Files>(rt: &R, alloc: Global, word: &str) -> Option<Vec<u8>> {
    let mut bytes = Vec::new(alloc);
    if read_changed(rt, word, &mut bytes) {
        Some(bytes)
    } else {
        None
    }
}
