//! What the words ask for.

ghost use Rattle.std.specs.Prelude.{◌≡◌, ◌≤◌, ◌<◌, ◌&&◌, ◌∷◌, true, nat_lt, nat_le, is_some, length, map, take, drop, IfOk, IfSome, codes};
ghost use Rattle.std.specs.Option.{option_copied, option_map};
ghost use Rattle.std.specs.List.{list_all};
ghost use Rattle.std.specs.Str.{bytes_eq};
ghost use Rattle.std.specs.String.{string_bytes};
ghost use Rattle.kilim_command.specs.grammar.Numbers.{int_by};
ghost use Rattle.kilim_command.specs.grammar.Parts.{is_int, listed_word, other_read, meant, numbers_of};
ghost use Rattle.kilim_command.specs.grammar.Words.{are_files, args_in, check_request, class_files, count_hyphened, count_plain, demo_request, demo_with, file_in, ints_of, is_file, is_hyphened, is_option, is_replay_option, journal_option, replay_behind, replay_of, replay_request, replay_with, request_of, run_behind, run_of, run_request, run_with, value_behind, values_of, is_weave_option, weave_of, weave_request, weave_with};

use crate::grammar::images::{resume_request, save_request};
use crate::grammar::numbers::int_of;
use crate::grammar::options::{
    Values, are_demo_options, are_options, are_replay_options, are_weave_options, demo_number,
    number_or, text_in, values_of,
};
use kilim_units::{NoMemory, Seq};
use std::alloc::Global;

/// What `weave` is given.
#[derive(Drop)]
pub struct WeaveWords<'a> {
    /// The directory below which the woven files are written.
    pub to: &'a str,
    pub files: &'a [String],
}

/// What `run` is given.
#[derive(Drop)]
pub struct RunWords<'a> {
    /// The name of the main class.
    pub main: &'a str,
    /// From 1 to 16.
    pub workers: u64,
    /// The most instructions of each task.
    pub steps: u64,
    /// The words behind `--`, of which each writes an integer of 32 bits.
    pub args: &'a [String],
    pub files: &'a [String],
}

/// What `replay` is given.
#[derive(Drop)]
pub struct ReplayWords<'a> {
    /// The name of the main class.
    pub main: &'a str,
    /// The file with the journal.
    pub journal: &'a str,
    /// The most instructions of each task.
    pub steps: u64,
    /// The words behind `--`, of which each writes an integer of 32 bits.
    pub args: &'a [String],
    pub files: &'a [String],
}

/// What `save` is given.
#[derive(Drop)]
pub struct SaveWords<'a> {
    /// The name of the main class.
    pub main: &'a str,
    /// The file into which the image is written.
    pub image: &'a str,
    /// How many entries the journal is to have, if the run makes so many.
    pub entries: u64,
    /// The most instructions of each task.
    pub steps: u64,
    /// The words behind `--`, of which each writes an integer of 32 bits.
    pub args: &'a [String],
    pub files: &'a [String],
}

/// What `resume` is given.
#[derive(Clone, Copy)]
pub struct ResumeWords<'a> {
    /// The file with the image.
    pub image: &'a str,
    /// From 1 to 16.
    pub workers: u64,
}

/// What `demo` is given.
#[derive(Clone, Copy)]
pub struct DemoWords {
    pub number: u64,
    /// From 1 to 16.
    pub workers: u64,
}

/// What the words ask for, as the words that were given.
#[derive(Drop)]
pub enum Asked<'a> {
    /// To check these files.
    Check(&'a [String]),
    Weave(WeaveWords<'a>),
    Run(RunWords<'a>),
    Replay(ReplayWords<'a>),
    Save(SaveWords<'a>),
    Resume(ResumeWords<'a>),
    Demo(DemoWords),
}

impl Asked<'_> {
    /// The words that name class files.
    pub fn files(&self) -> &[String]
        ensures { map string_bytes result.now ≡ class_files (meant self.now) }
    {
        match self {
            Asked::Check(files) => files,
            Asked::Weave(weave) => weave.files,
            Asked::Run(run) => run.files,
            Asked::Replay(replay) => replay.files,
            Asked::Save(save) => save.files,
            Asked::Resume(_) => &[],
            Asked::Demo(_) => &[],
        }
    }

    /// The name of the file with a journal, which is read behind the class files, or with an image.
    pub fn other(&self) -> Option<&str>
        ensures { listed_word (option_copied result) ≡ other_read (meant self.now) }
    {
        match self {
            Asked::Replay(replay) => Some(replay.journal),
            Asked::Resume(resume) => Some(resume.image),
            _ => None,
        }
    }
}

fn is_hyphened(word: &str) -> bool
    ensures { result ≡ is_hyphened word.now }
{
    match word.as_bytes() {
        [] => false,
        [b, ..] => *b == b'-',
    }
}

/// Whether a word may name a file.
pub fn is_file(word: &str) -> bool
    ensures { result ≡ is_file word.now }
{
    match word.as_bytes() {
        [] => false,
        [b, ..] => *b != b'-',
    }
}

/// How many words stand first that begin with a hyphen.
pub fn count_hyphened(words: &[String]) -> usize
    ensures count { result ≡ count_hyphened (map string_bytes words.now) }
    ensures within { result ≤ length words.now }
{
    for (i, word) in words.iter().enumerate() {
        if !is_hyphened(word.as_str()) {
            return i;
        }
    }
    words.len()
}

/// How many words stand first that don't.
pub fn count_plain(words: &[String]) -> usize
    ensures count { result ≡ count_plain (map string_bytes words.now) }
    ensures within { result ≤ length words.now }
{
    for (i, word) in words.iter().enumerate() {
        if is_hyphened(word.as_str()) {
            return i;
        }
    }
    words.len()
}

fn all_files(files: &[String]) -> bool
    ensures { result ≡ list_all (λ file. is_file (string_bytes file)) files.now }
{
    for file in files {
        if !is_file(file.as_str()) {
            return false;
        }
    }
    true
}

fn are_words(files: &[String]) -> bool
    ensures few { result ≡ true → length files.now ≤ 1000 }
    ensures are { result ≡ (nat_lt 0 (length files.now) && (nat_le (length files.now) 1000 && list_all (λ file. is_file (string_bytes file)) files.now)) }
{
    !files.is_empty() && files.len() <= 1000 && all_files(files)
}

/// Whether the words are the names of at least one file and of at most 1,000.
#[tactic(auto, using(crate::proofs::grammar::Mapped::are_words))]
pub fn are_files(files: &[String]) -> bool
    ensures are { result ≡ are_files (map string_bytes files.now) }
    ensures few { result ≡ true → length files.now ≤ 1000 }
{
    are_words(files)
}

fn is_int(word: &str) -> bool
    ensures { result ≡ is_some (int_by word.now (value_behind (codes "-") word.now)) }
{
    int_of(word).is_some()
}

fn all_ints(words: &[String]) -> bool
    ensures { result ≡ list_all (λ word. is_int (string_bytes word)) words.now }
{
    for word in words {
        if !is_int(word.as_str()) {
            return false;
        }
    }
    true
}

// The words, where each of them writes an integer.
#[tactic(auto, using(crate::proofs::grammar::Ints::taken, crate::proofs::grammar::Ints::refused))]
fn ints_in(words: &[String]) -> Option<&[String]>
    ensures { option_map (λ ws. numbers_of (map string_bytes ws)) (option_copied result) ≡ ints_of (map string_bytes words.now) }
{
    if all_ints(words) { Some(words) } else { None }
}

/// The integers that these words write, in their order; none where a word writes none. `request` answers words of which each
/// does. The error is want of memory alone.
pub fn integers(alloc: Global, words: &[String]) -> Result<Seq<i32>, NoMemory>
    ensures { IfOk result (λ ints. ints ≡ numbers_of (map string_bytes words.now)) }
{
    let mut ints = Vec::new(alloc);
    for word in words {
        match int_of(word.as_str()) {
            Some(n) => {
                let Ok(()) = ints.push(n) else {
                    return Err(NoMemory);
                };
            }
            None => return Ok(Seq::new(alloc)),
        }
    }
    Ok(Seq::from_vec(ints))
}

fn is_mark(word: &str) -> bool
    ensures { result ≡ bytes_eq word.now (codes "--") }
{
    word == "--"
}

/// The words behind `--`, if they write integers; none where no word stands.
pub fn args_in(words: &[String]) -> Option<&[String]>
    ensures { option_map (λ ws. numbers_of (map string_bytes ws)) (option_copied result) ≡ args_in (map string_bytes words.now) }
{
    match words {
        [] => Some(words),
        [mark, words @ ..] => {
            if is_mark(mark.as_str()) && words.len() <= 100 {
                ints_in(words)
            } else {
                None
            }
        }
    }
}

fn check_request(files: &[String]) -> Option<Asked<'_>>
    ensures few { IfSome result (λ asked. length (class_files (meant asked)) ≤ 1000) }
    ensures request { option_map meant result ≡ check_request (map string_bytes files.now) }
{
    if are_files(files) {
        Some(Asked::Check(files))
    } else {
        None
    }
}

// Whether the options of `weave` are well, and the files.
fn can_weave(options: &[String], files: &[String]) -> bool
    ensures can { result ≡ (list_all is_weave_option (map string_bytes options.now) && are_files (map string_bytes files.now)) }
    ensures few { result ≡ true → length files.now ≤ 1000 }
{
    are_weave_options(options) && are_files(files)
}

fn weave_with<'a>(files: &'a [String], to: Option<&'a str>) -> Option<Asked<'a>>
    ensures files { IfSome result (λ asked. class_files (meant asked) ≡ map string_bytes files.now) }
    ensures request { option_map meant result ≡ weave_with (map string_bytes files.now) (option_copied to.entry) }
{
    match to {
        Some(to) => Some(Asked::Weave(WeaveWords { to, files })),
        None => None,
    }
}

fn weave_of<'a>(options: &'a [String], files: &'a [String]) -> Option<Asked<'a>>
    ensures few { IfSome result (λ asked. length (class_files (meant asked)) ≤ 1000) }
    ensures request { option_map meant result ≡ weave_of (map string_bytes options.now) (map string_bytes files.now) }
{
    if !can_weave(options, files) {
        return None;
    }
    weave_with(files, text_in("--to=", options))
}

fn weave_request(words: &[String]) -> Option<Asked<'_>>
    ensures few { IfSome result (λ asked. length (class_files (meant asked)) ≤ 1000) }
    ensures request { option_map meant result ≡ weave_request (map string_bytes words.now) }
{
    let (options, files) = words.split_at(count_hyphened(words));
    weave_of(options, files)
}

// Whether the options are well, and the files.
fn are_well(options: &[String], files: &[String]) -> bool
    ensures well { result ≡ (list_all is_option (map string_bytes options.now) && are_files (map string_bytes files.now)) }
    ensures few { result ≡ true → length files.now ≤ 1000 }
{
    are_options(options) && are_files(files)
}

fn run_of<'a>(options: &'a [String], files: &'a [String], behind: &'a [String]) -> Option<Asked<'a>>
    ensures few { IfSome result (λ asked. length (class_files (meant asked)) ≤ 1000) }
    ensures request { option_map meant result ≡ run_of (map string_bytes options.now) (map string_bytes files.now) (map string_bytes behind.now) }
{
    if !are_well(options, files) {
        return None;
    }
    let main = text_in("--main=", options);
    let workers = number_or(1, 16, "--workers=", options);
    let steps = number_or(1000000, 100000000, "--steps=", options);
    run_with(files, main, workers, steps, args_in(behind))
}

fn run_with<'a>(
    files: &'a [String],
    main: Option<&'a str>,
    workers: Option<u64>,
    steps: Option<u64>,
    args: Option<&'a [String]>,
) -> Option<Asked<'a>>
    ensures files { IfSome result (λ asked. class_files (meant asked) ≡ map string_bytes files.now) }
    ensures request { option_map meant result ≡ run_with (map string_bytes files.now) (option_copied main.entry) workers steps (option_map (λ ws. numbers_of (map string_bytes ws)) (option_copied args.entry)) }
{
    match (main, workers, steps, args) {
        (Some(main), Some(workers), Some(steps), Some(args)) => Some(Asked::Run(RunWords {
            main,
            workers,
            steps,
            args,
            files,
        })),
        _ => None,
    }
}

fn run_behind<'a>(options: &'a [String], others: &'a [String]) -> Option<Asked<'a>>
    ensures few { IfSome result (λ asked. length (class_files (meant asked)) ≤ 1000) }
    ensures request { option_map meant result ≡ run_behind (map string_bytes options.now) (map string_bytes others.now) }
{
    let (files, behind) = others.split_at(count_plain(others));
    run_of(options, files, behind)
}

fn run_request(words: &[String]) -> Option<Asked<'_>>
    ensures few { IfSome result (λ asked. length (class_files (meant asked)) ≤ 1000) }
    ensures request { option_map meant result ≡ run_request (map string_bytes words.now) }
{
    let (options, others) = words.split_at(count_hyphened(words));
    run_behind(options, others)
}

// The name of the file with the journal.
fn journal_in<'a>(options: &'a [String]) -> Option<&'a str>
    ensures { option_copied result ≡ file_in (values_of journal_option (map string_bytes options.now)) }
{
    match values_of("--journal=", options) {
        Values::One(name) if is_file(name) => Some(name),
        _ => None,
    }
}

// Whether the options of `replay` are well, and the files.
fn can_replay(options: &[String], files: &[String]) -> bool
    ensures can { result ≡ (list_all is_replay_option (map string_bytes options.now) && are_files (map string_bytes files.now)) }
    ensures few { result ≡ true → length files.now ≤ 1000 }
{
    are_replay_options(options) && are_files(files)
}

fn replay_of<'a>(
    options: &'a [String],
    files: &'a [String],
    behind: &'a [String],
) -> Option<Asked<'a>>
    ensures few { IfSome result (λ asked. length (class_files (meant asked)) ≤ 1000) }
    ensures request { option_map meant result ≡ replay_of (map string_bytes options.now) (map string_bytes files.now) (map string_bytes behind.now) }
{
    if !can_replay(options, files) {
        return None;
    }
    let main = text_in("--main=", options);
    let journal = journal_in(options);
    let steps = number_or(1000000, 100000000, "--steps=", options);
    replay_with(files, main, journal, steps, args_in(behind))
}

fn replay_with<'a>(
    files: &'a [String],
    main: Option<&'a str>,
    journal: Option<&'a str>,
    steps: Option<u64>,
    args: Option<&'a [String]>,
) -> Option<Asked<'a>>
    ensures files { IfSome result (λ asked. class_files (meant asked) ≡ map string_bytes files.now) }
    ensures request { option_map meant result ≡ replay_with (map string_bytes files.now) (option_copied main.entry) (option_copied journal.entry) steps (option_map (λ ws. numbers_of (map string_bytes ws)) (option_copied args.entry)) }
{
    match (main, journal, steps, args) {
        (Some(main), Some(journal), Some(steps), Some(args)) => {
            Some(Asked::Replay(ReplayWords {
                main,
                journal,
                steps,
                args,
                files,
            }))
        }
        _ => None,
    }
}

fn replay_behind<'a>(options: &'a [String], others: &'a [String]) -> Option<Asked<'a>>
    ensures few { IfSome result (λ asked. length (class_files (meant asked)) ≤ 1000) }
    ensures request { option_map meant result ≡ replay_behind (map string_bytes options.now) (map string_bytes others.now) }
{
    let (files, behind) = others.split_at(count_plain(others));
    replay_of(options, files, behind)
}

fn replay_request(words: &[String]) -> Option<Asked<'_>>
    ensures few { IfSome result (λ asked. length (class_files (meant asked)) ≤ 1000) }
    ensures request { option_map meant result ≡ replay_request (map string_bytes words.now) }
{
    let (options, others) = words.split_at(count_hyphened(words));
    replay_behind(options, others)
}

fn demo_with<'a>(number: Option<u64>, workers: Option<u64>) -> Option<Asked<'a>>
    ensures few { IfSome result (λ asked. length (class_files (meant asked)) ≤ 1000) }
    ensures request { option_map meant result ≡ demo_with number workers }
{
    match (number, workers) {
        (Some(number), Some(workers)) => Some(Asked::Demo(DemoWords { number, workers })),
        _ => None,
    }
}

fn demo_request<'a>(words: &'a [String]) -> Option<Asked<'a>>
    ensures few { IfSome result (λ asked. length (class_files (meant asked)) ≤ 1000) }
    ensures request { option_map meant result ≡ demo_request (map string_bytes words.now) }
{
    if !are_demo_options(words) {
        return None;
    }
    demo_with(demo_number(words), number_or(1, 16, "--workers=", words))
}

// What a command asks for with the words behind it.
fn asked_by<'a>(command: &str, words: &'a [String]) -> Option<Asked<'a>>
    ensures few { IfSome result (λ asked. length (class_files (meant asked)) ≤ 1000) }
    ensures request { option_map meant result ≡ request_of (command.now ∷ map string_bytes words.now) }
{
    match command {
        "check" => check_request(words),
        "weave" => weave_request(words),
        "run" => run_request(words),
        "replay" => replay_request(words),
        "save" => save_request(words),
        "resume" => resume_request(words),
        "demo" => demo_request(words),
        _ => None,
    }
}

/// What the words ask for, or nothing where they aren't in the grammar (specs/Words.antt). At most 1,000 files are named.
/// It takes no memory.
pub fn request(words: &[String]) -> Option<Asked<'_>>
    ensures few { IfSome result (λ asked. length (class_files (meant asked)) ≤ 1000) }
    ensures request { option_map meant result ≡ request_of (map string_bytes words.now) }
{
    match words {
        [] => None,
        [command, rest @ ..] => asked_by(command.as_str(), rest),
    }
}
