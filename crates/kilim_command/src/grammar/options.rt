//! Options.

ghost use Rattle.std.specs.Prelude.{◌≡◌, ◌≤◌, ℕ, List, [], ◌++◌, map, IfSome};
ghost use Rattle.std.specs.Option.{option_copied, option_map};
ghost use Rattle.std.specs.List.{list_all};
ghost use Rattle.std.specs.String.{string_bytes};
ghost use Rattle.kilim_command.specs.grammar.Parts.{Tells};
ghost use Rattle.kilim_command.specs.grammar.Words.{value_or, is_demo_option, is_option, is_replay_option, is_resume_option, is_save_option, is_weave_option, number_of, number_option, number_or, steps_option, text_in, to_option, value_behind, values_of, workers_option};

use crate::grammar::numbers::{number_in, value_behind};

/// The values of an option: none, one, or more than one.
#[derive(Clone, Copy)]
pub enum Values<'a> {
    Nothing,
    One(&'a str),
    Many,
}

// With one word more.
fn with_word<'a>(found: Values<'a>, front: &str, word: &'a str) -> Values<'a>
    ensures { (vs : List (List ℕ)) → Tells found.entry vs → Tells result (vs ++ value_or (value_behind front.now word.now) []) }
{
    match (found, value_behind(front, word)) {
        (_, None) => found,
        (Values::Nothing, Some(value)) => Values::One(value),
        (_, Some(_)) => Values::Many,
    }
}

/// The values of an option, as far as they matter.
pub fn values_of<'a>(front: &str, options: &'a [String]) -> Values<'a>
    ensures { Tells result (values_of front.now (map string_bytes options.now)) }
{
    let mut found = Values::Nothing;
    for option in options {
        found = with_word(found, front, option.as_str());
    }
    found
}

fn is_option(word: &str) -> bool
    ensures { result ≡ is_option word.now }
{
    value_behind("--main=", word).is_some()
        || value_behind("--workers=", word).is_some()
        || value_behind("--steps=", word).is_some()
}

/// Whether all of these words are options of `run`.
pub fn are_options(words: &[String]) -> bool
    ensures { result ≡ list_all is_option (map string_bytes words.now) }
{
    for word in words {
        if !is_option(word.as_str()) {
            return false;
        }
    }
    true
}

fn is_replay_option(word: &str) -> bool
    ensures { result ≡ is_replay_option word.now }
{
    value_behind("--main=", word).is_some()
        || value_behind("--journal=", word).is_some()
        || value_behind("--steps=", word).is_some()
}

/// Whether all of these words are options of `replay`.
pub fn are_replay_options(words: &[String]) -> bool
    ensures { result ≡ list_all is_replay_option (map string_bytes words.now) }
{
    for word in words {
        if !is_replay_option(word.as_str()) {
            return false;
        }
    }
    true
}

fn is_demo_option(word: &str) -> bool
    ensures { result ≡ is_demo_option word.now }
{
    value_behind("--number=", word).is_some() || value_behind("--workers=", word).is_some()
}

/// Whether all of these words are options of `demo`.
pub fn are_demo_options(words: &[String]) -> bool
    ensures { result ≡ list_all is_demo_option (map string_bytes words.now) }
{
    for word in words {
        if !is_demo_option(word.as_str()) {
            return false;
        }
    }
    true
}

fn is_save_option(word: &str) -> bool
    ensures { result ≡ is_save_option word.now }
{
    value_behind("--main=", word).is_some()
        || value_behind("--entries=", word).is_some()
        || value_behind("--image=", word).is_some()
        || value_behind("--steps=", word).is_some()
}

/// Whether all of these words are options of `save`.
pub fn are_save_options(words: &[String]) -> bool
    ensures { result ≡ list_all is_save_option (map string_bytes words.now) }
{
    for word in words {
        if !is_save_option(word.as_str()) {
            return false;
        }
    }
    true
}

fn is_resume_option(word: &str) -> bool
    ensures { result ≡ is_resume_option word.now }
{
    value_behind("--image=", word).is_some() || value_behind("--workers=", word).is_some()
}

/// Whether all of these words are options of `resume`.
pub fn are_resume_options(words: &[String]) -> bool
    ensures { result ≡ list_all is_resume_option (map string_bytes words.now) }
{
    for word in words {
        if !is_resume_option(word.as_str()) {
            return false;
        }
    }
    true
}

/// A number up to `most`, where the option stands once.
pub fn number_of(most: u64, front: &str, options: &[String]) -> Option<u64>
    ensures number { result ≡ number_of most (values_of front.now (map string_bytes options.now)) }
    ensures most { IfSome result (λ n. n ≤ most) }
{
    match values_of(front, options) {
        Values::One(value) => number_in(0, most, value),
        _ => None,
    }
}

/// The number of the demo.
pub fn demo_number(options: &[String]) -> Option<u64>
    ensures { result ≡ number_of u64.MAX (values_of number_option (map string_bytes options.now)) }
{
    match values_of("--number=", options) {
        Values::One(value) => number_in(0, u64::MAX, value),
        _ => None,
    }
}

fn is_weave_option(word: &str) -> bool
    ensures { result ≡ is_weave_option word.now }
{
    value_behind("--to=", word).is_some()
}

/// Whether all of these words are options of `weave`.
pub fn are_weave_options(words: &[String]) -> bool
    ensures { result ≡ list_all is_weave_option (map string_bytes words.now) }
{
    for word in words {
        if !is_weave_option(word.as_str()) {
            return false;
        }
    }
    true
}

/// The text of an option that stands once and isn't empty.
pub fn text_in<'a>(front: &str, options: &'a [String]) -> Option<&'a str>
    ensures { option_copied result ≡ text_in (values_of front.now (map string_bytes options.now)) }
{
    match values_of(front, options) {
        Values::One(text) if !text.is_empty() => Some(text),
        _ => None,
    }
}

/// A number from 1 to `most`, or the default where the option doesn't stand.
pub fn number_or(default: u64, most: u64, front: &str, options: &[String]) -> Option<u64>
    requires { default ≤ most }
    ensures number { result ≡ number_or default most (values_of front.now (map string_bytes options.now)) }
    ensures most { IfSome result (λ n. n ≤ most) }
{
    match values_of(front, options) {
        Values::Nothing => Some(default),
        Values::One(value) => number_in(1, most, value),
        Values::Many => None,
    }
}
