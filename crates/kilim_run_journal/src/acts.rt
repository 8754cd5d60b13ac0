//! Acts and entries at the front of bytes. Where the text of one stands there, the answer is that one. Elsewhere it may
//! be another one.

ghost use Rattle.std.specs.Prelude.{◌≡◌, ◌<◌, ◌^◌, ◌∷◌, ◌++◌, [], true, length, IfOk, IfSome, IsSomeAnd, List, ℕ, Some, codes};
ghost use Rattle.std.specs.Fmt.{decimal};
ghost use Rattle.kilim_program.specs.declared.names.BoxName.{BoxName as Name};
ghost use Rattle.kilim_run_state.specs.declared.value.Token.{Token as Part};
ghost use Rattle.kilim_run_state.specs.declared.cause.EndCause.{EndCause as Cause};
ghost use Rattle.kilim_run_state.specs.Cause.{word_of};
ghost use Rattle.kilim_run_journal.specs.declared.entry.Act.{Act as Deed};
ghost use Rattle.kilim_run_journal.specs.declared.entry.Act.TheVariants as act;
ghost use Rattle.kilim_run_journal.specs.declared.entry.Entry.{Entry as Event};
ghost use Rattle.kilim_run_journal.specs.Text.{box_text, shape_text, act_text, entry_text};
ghost use Rattle.kilim_run_journal.specs.Readable.{BoxFits, ShapeFits, ActFits, is_object, is_plain_value, is_readable_act};
ghost use Rattle.kilim_run_journal.specs.Read.{IsEntry};
ghost use Rattle.kilim_run_journal.specs.Fronts.{word_text, word_of_act, text_behind, begins_object};

use crate::entry::{Act, Entry};
use crate::numbers::{after, box_at, number_at, small_at, word_at};
use crate::values::shape_at;
use kilim_run_state::{EndCause, Shape, Token};
use kilim_units::NoMemory;
use std::alloc::Global;

/// The word with which an act begins.
#[derive(Clone, Copy)]
pub enum Word {
    Put,
    Take,
    Empty,
    Start,
    Print,
    End,
    Wait,
    Bound,
}

const WORDS: [Word; 8] = [
    Word::Put,
    Word::Take,
    Word::Empty,
    Word::Start,
    Word::Print,
    Word::End,
    Word::Wait,
    Word::Bound,
];

// A word, and the space behind it.
fn text_of(word: Word) -> &'static [u8]
    ensures { result.now ≡ word_text word }
{
    match word {
        Word::Put => b"put ",
        Word::Take => b"take ",
        Word::Empty => b"empty ",
        Word::Start => b"start ",
        Word::Print => b"print ",
        Word::End => b"end ",
        Word::Wait => b"waits ",
        Word::Bound => b"bound ",
    }
}

// The bytes behind a word and its space.
fn behind(bytes: &[u8], word: Word) -> Option<&[u8]>
    ensures right { (x : List ℕ) → bytes.now ≡ word_text word ++ x → IsSomeAnd result (λ r. r.now ≡ x) }
    ensures some { IfSome result (λ r. bytes.now ≡ word_text word ++ r.now) }
{
    after(bytes, text_of(word))
}

// The word of an act, and the bytes behind it and its space.
fn act_word_at(bytes: &[u8]) -> Option<(Word, &[u8])>
    ensures { (w : Word) (x : List ℕ) → bytes.now ≡ word_text w ++ x → IsSomeAnd result (λ r. (r.0 ≡ w) × (r.1.now ≡ x)) }
{
    for k in 0..WORDS.len() {
        match behind(bytes, WORDS[k]) {
            Some(rest) => return Some((WORDS[k], rest)),
            None => {}
        }
    }
    None
}

const CAUSES: [EndCause; 14] = [
    EndCause::Done,
    EndCause::Spent,
    EndCause::Depth,
    EndCause::Null,
    EndCause::Index,
    EndCause::Size,
    EndCause::Large,
    EndCause::Cast,
    EndCause::Store,
    EndCause::Zero,
    EndCause::Boxes,
    EndCause::Tasks,
    EndCause::Full,
    EndCause::Thrown,
];

fn is_word_of(cause: EndCause, word: &[u8]) -> bool
    ensures yes { result ≡ true → word.now ≡ word_of cause }
    ensures no { word.now ≡ word_of cause → result ≡ true }
{
    cause.word().as_bytes() == word
}

// The cause that a word stands for.
fn cause_named(word: &[u8]) -> Option<EndCause>
    ensures { (cause : Cause) → word.now ≡ word_of cause → result ≡ Some cause }
{
    for k in 0..CAUSES.len() {
        if is_word_of(CAUSES[k], word) {
            return Some(CAUSES[k]);
        }
    }
    None
}

// An end, behind its word.
fn end_at(bytes: &[u8]) -> Option<Act>
    ensures right { (cause : Cause) (x : List ℕ) → bytes.now ≡ word_of cause ++ (10 ∷ x) → result ≡ Some (act.End cause) }
    ensures readable { IfSome result (λ a. (is_readable_act a ≡ true) × ActFits a) }
{
    match cause_named(word_at(bytes)) {
        Some(cause) => Some(Act::End(cause)),
        None => None,
    }
}

fn begins_object(shape: &[Token]) -> bool
    ensures { result ≡ begins_object shape.now }
{
    match shape.first() {
        Some(Token::Open(_)) => true,
        _ => false,
    }
}

// The shape of an object or array.
fn object_at(alloc: Global, bytes: &[u8]) -> Result<Option<Shape>, NoMemory>
    ensures right { (shape : List Part) (x : List ℕ) → is_object shape ≡ true → ShapeFits shape → bytes.now ≡ shape_text shape ++ (10 ∷ x) → IfOk result (λ found. found ≡ Some shape) }
    ensures object { IfOk result (λ found. IfSome found (λ shape. (is_object shape ≡ true) × ShapeFits shape)) }
{
    let Ok(found) = shape_at(alloc, bytes) else {
        return Err(NoMemory);
    };
    match found {
        None => Ok(None),
        Some(shape) => {
            if begins_object(shape.as_slice()) {
                Ok(Some(shape))
            } else {
                Ok(None)
            }
        }
    }
}

// The shape of a value that is one token.
fn print_at(alloc: Global, bytes: &[u8]) -> Result<Option<Act>, NoMemory>
    ensures right { (shape : List Part) (x : List ℕ) → is_plain_value shape ≡ true → ShapeFits shape → bytes.now ≡ shape_text shape ++ (10 ∷ x) → IfOk result (λ found. found ≡ Some (act.Print shape)) }
    ensures readable { IfOk result (λ found. IfSome found (λ a. (is_readable_act a ≡ true) × ActFits a)) }
{
    let Ok(found) = shape_at(alloc, bytes) else {
        return Err(NoMemory);
    };
    match found {
        None => Ok(None),
        Some(shape) => {
            if begins_object(shape.as_slice()) {
                Ok(None)
            } else {
                Ok(Some(Act::Print(shape)))
            }
        }
    }
}

// A put, behind its word.
fn put_at(alloc: Global, bytes: &[u8]) -> Result<Option<Act>, NoMemory>
    ensures right { (b : Name) (n : ℕ) (shape : List Part) (x : List ℕ) → is_object shape ≡ true → ActFits (act.Put b n shape) → bytes.now ≡ box_text b ++ (codes " #" ++ (decimal n ++ (codes " " ++ (shape_text shape ++ (10 ∷ x))))) → IfOk result (λ found. found ≡ Some (act.Put b n shape)) }
    ensures readable { IfOk result (λ found. IfSome found (λ a. (is_readable_act a ≡ true) × ActFits a)) }
{
    let Some((name, rest)) = box_at(bytes) else {
        return Ok(None);
    };
    let Some(rest) = after(rest, b" #") else {
        return Ok(None);
    };
    let Some((number, rest)) = number_at(rest) else {
        return Ok(None);
    };
    let Some(rest) = after(rest, b" ") else {
        return Ok(None);
    };
    let Ok(found) = object_at(alloc, rest) else {
        return Err(NoMemory);
    };
    match found {
        Some(shape) => Ok(Some(Act::Put(name, number, shape))),
        None => Ok(None),
    }
}

// A take, behind its word.
fn take_at(bytes: &[u8]) -> Option<Act>
    ensures right { (b : Name) (n : ℕ) (x : List ℕ) → ActFits (act.Take b n) → bytes.now ≡ box_text b ++ (codes " #" ++ (decimal n ++ (10 ∷ x))) → result ≡ Some (act.Take b n) }
    ensures readable { IfSome result (λ a. (is_readable_act a ≡ true) × ActFits a) }
{
    let Some((name, rest)) = box_at(bytes) else {
        return None;
    };
    let Some(rest) = after(rest, b" #") else {
        return None;
    };
    match number_at(rest) {
        Some((number, _)) => Some(Act::Take(name, number)),
        None => None,
    }
}

// The start of a task, behind its word.
fn start_at(alloc: Global, bytes: &[u8]) -> Result<Option<Act>, NoMemory>
    ensures right { (n : ℕ) (shape : List Part) (x : List ℕ) → is_object shape ≡ true → ActFits (act.Start n shape) → bytes.now ≡ decimal n ++ (codes " " ++ (shape_text shape ++ (10 ∷ x))) → IfOk result (λ found. found ≡ Some (act.Start n shape)) }
    ensures readable { IfOk result (λ found. IfSome found (λ a. (is_readable_act a ≡ true) × ActFits a)) }
{
    let Some((task, rest)) = small_at(bytes) else {
        return Ok(None);
    };
    let Some(rest) = after(rest, b" ") else {
        return Ok(None);
    };
    let Ok(found) = object_at(alloc, rest) else {
        return Err(NoMemory);
    };
    match found {
        Some(shape) => Ok(Some(Act::Start(task, shape))),
        None => Ok(None),
    }
}

// An empty mailbox, behind its word.
fn empty_at(bytes: &[u8]) -> Option<Act>
    ensures right { (b : Name) (x : List ℕ) → BoxFits b → bytes.now ≡ box_text b ++ (10 ∷ x) → result ≡ Some (act.Empty b) }
    ensures readable { IfSome result (λ a. (is_readable_act a ≡ true) × ActFits a) }
{
    match box_at(bytes) {
        Some((name, _)) => Some(Act::Empty(name)),
        None => None,
    }
}

// A wait, behind its word.
fn wait_at(bytes: &[u8]) -> Option<Act>
    ensures right { (b : Name) (x : List ℕ) → BoxFits b → bytes.now ≡ box_text b ++ (10 ∷ x) → result ≡ Some (act.Wait b) }
    ensures readable { IfSome result (λ a. (is_readable_act a ≡ true) × ActFits a) }
{
    match box_at(bytes) {
        Some((name, _)) => Some(Act::Wait(name)),
        None => None,
    }
}

// A bound of a mailbox, behind its word.
fn bound_at(bytes: &[u8]) -> Option<Act>
    ensures right { (b : Name) (n : ℕ) (x : List ℕ) → ActFits (act.Bound b n) → bytes.now ≡ box_text b ++ (codes " " ++ (decimal n ++ (10 ∷ x))) → result ≡ Some (act.Bound b n) }
    ensures readable { IfSome result (λ a. (is_readable_act a ≡ true) × ActFits a) }
{
    let Some((name, rest)) = box_at(bytes) else {
        return None;
    };
    let Some(rest) = after(rest, b" ") else {
        return None;
    };
    match small_at(rest) {
        Some((most, _)) => Some(Act::Bound(name, most)),
        None => None,
    }
}

// What stands behind the word of an act.
fn act_behind(alloc: Global, word: Word, bytes: &[u8]) -> Result<Option<Act>, NoMemory>
    ensures right { (a : Deed) (x : List ℕ) → word ≡ word_of_act a → is_readable_act a ≡ true → ActFits a → bytes.now ≡ text_behind a ++ (10 ∷ x) → IfOk result (λ found. found ≡ Some a) }
    ensures readable { IfOk result (λ found. IfSome found (λ a. (is_readable_act a ≡ true) × ActFits a)) }
{
    match word {
        Word::Put => put_at(alloc, bytes),
        Word::Take => Ok(take_at(bytes)),
        Word::Empty => Ok(empty_at(bytes)),
        Word::Start => start_at(alloc, bytes),
        Word::Print => print_at(alloc, bytes),
        Word::End => Ok(end_at(bytes)),
        Word::Wait => Ok(wait_at(bytes)),
        Word::Bound => Ok(bound_at(bytes)),
    }
}

// An act.
fn act_at(alloc: Global, bytes: &[u8]) -> Result<Option<Act>, NoMemory>
    ensures right { (a : Deed) (x : List ℕ) → is_readable_act a ≡ true → ActFits a → bytes.now ≡ act_text a ++ (10 ∷ x) → IfOk result (λ found. found ≡ Some a) }
    ensures readable { IfOk result (λ found. IfSome found (λ a. (is_readable_act a ≡ true) × ActFits a)) }
{
    match act_word_at(bytes) {
        Some((word, rest)) => act_behind(alloc, word, rest),
        None => Ok(None),
    }
}

// The entry whose text stands at the front, if one does.
pub fn entry_at(alloc: Global, bytes: &[u8]) -> Result<Option<Entry>, NoMemory>
    ensures right { (e : Event) (x : List ℕ) → IsEntry e → bytes.now ≡ entry_text e ++ x → IfOk result (λ found. found ≡ Some e) }
    ensures entry { IfOk result (λ found. IfSome found IsEntry) }
{
    let Some((task, rest)) = small_at(bytes) else {
        return Ok(None);
    };
    let Some(rest) = after(rest, b" ") else {
        return Ok(None);
    };
    let Ok(found) = act_at(alloc, rest) else {
        return Err(NoMemory);
    };
    match found {
        Some(act) => Ok(Some(Entry { task, act })),
        None => Ok(None),
    }
}
