//! The words of the command line.

use kilim_chart::{Choice, ROWS};
use kilim_units::{NoMemory, Seq};
use std::alloc::Global;

/// What the words ask for.
#[derive(Drop)]
pub struct Asked<'a> {
    /// The name of the file.
    pub journal: &'a str,
    /// Whether the text on who waits is asked for.
    pub waits: bool,
    pub choice: Choice,
    /// The most rows.
    pub most: usize,
}

// What options say; what none says yet is None.
#[derive(Drop)]
struct Options {
    waits: bool,
    from: Option<usize>,
    to: Option<usize>,
    tasks: Seq<u32>,
}

fn are_digits(bytes: &[u8]) -> bool {
    bytes.iter().all(|byte| byte.is_ascii_digit())
}

// The number that a word writes: decimal, without a plus or leading zeros.
fn number_of(word: &str) -> Option<u64> {
    let bytes = word.as_bytes();
    if !are_digits(bytes) || bytes.len() > 1 && bytes[0] == b'0' {
        return None;
    }
    match word.parse::<u64>() {
        Ok(number) => Some(number),
        Err(_) => None,
    }
}

// The line that a word writes, from 1 on.
fn line_of(word: &str) -> Option<usize> {
    match number_of(word) {
        Some(0) => None,
        Some(number) => Some(number as usize),
        None => None,
    }
}

fn task_of(word: &str) -> Option<u32> {
    match number_of(word) {
        Some(number) => match u32::try_from(number) {
            Ok(task) => Some(task),
            Err(_) => None,
        },
        None => None,
    }
}

// Takes the next option in; false where it is none, or stands twice.
fn take_option(options: &mut Options, word: &str) -> Result<bool, NoMemory> {
    if word == "--waits" {
        let first = !options.waits;
        options.waits = true;
        return Ok(first);
    }
    if let Some(value) = word.strip_prefix("--from=") {
        let first = options.from.is_none();
        options.from = line_of(value);
        return Ok(first && options.from.is_some());
    }
    if let Some(value) = word.strip_prefix("--to=") {
        let first = options.to.is_none();
        options.to = line_of(value);
        return Ok(first && options.to.is_some());
    }
    match word.strip_prefix("--task=") {
        Some(value) => take_task(&mut options.tasks, value),
        None => Ok(false),
    }
}

fn take_task(tasks: &mut Seq<u32>, value: &str) -> Result<bool, NoMemory> {
    match task_of(value) {
        Some(task) => match tasks.push(task) {
            Ok(()) => Ok(true),
            Err(_) => Err(NoMemory),
        },
        None => Ok(false),
    }
}

// What options ask for of a file; None where `--waits` stands beside others.
fn asked_by<'a>(options: Options, journal: &'a str) -> Option<Asked<'a>> {
    let Options {
        waits,
        from,
        to,
        tasks,
    } = options;
    if waits && (from.is_some() || to.is_some() || !tasks.is_empty()) {
        return None;
    }
    let most = if to.is_some() { usize::MAX } else { ROWS };
    let choice = Choice {
        from: from.unwrap_or(1),
        to: to.unwrap_or(usize::MAX),
        tasks,
    };
    Some(Asked {
        journal,
        waits,
        choice,
        most,
    })
}

/// What the words ask for: options, then the name of a file that isn't empty and doesn't begin with `-`. None where they aren't such words.
pub fn request(alloc: Global, words: &[String]) -> Result<Option<Asked<'_>>, NoMemory> {
    let [before @ .., last] = words else {
        return Ok(None);
    };
    let mut options = Options {
        waits: false,
        from: None,
        to: None,
        tasks: Seq::new(alloc),
    };
    for word in before {
        if !take_option(&mut options, word.as_str())? {
            return Ok(None);
        }
    }
    let journal = last.as_str();
    if journal.is_empty() || journal.starts_with("-") {
        return Ok(None);
    }
    Ok(asked_by(options, journal))
}
