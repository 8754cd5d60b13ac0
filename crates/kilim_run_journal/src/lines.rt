//! Entries as lines of text.

ghost use Rattle.std.specs.Prelude.{◌≡◌, ◌++◌, OnOk, IfOk};
ghost use Rattle.kilim_run_journal.specs.declared.entry.Act.TheVariants as act;
ghost use Rattle.kilim_run_journal.specs.Text.{act_text, entry_text, journal_text};
ghost use Rattle.kilim_run_journal.specs.Readable.{IsReadable, HasOneJournal, ShapesAreValues, ValuesAreJoined};

use crate::entry::{Act, Entry};
use crate::pieces::{
    push_box_behind, push_byte, push_number, push_number_behind, push_shape_behind,
};
use kilim_program::BoxName;
use kilim_run_state::{EndCause, Token};
use kilim_units::NoMemory;
use std::alloc::{AllocError, Global};

fn push_put(
    out: &mut Vec<u8>,
    name: BoxName,
    number: u64,
    shape: &[Token],
) -> Result<(), AllocError>
    ensures { OnOk result (out.new.items ≡ out.old.items ++ act_text (act.Put name number shape.now)) }
{
    let Ok(()) = push_box_behind(out, b"put ", name) else {
        return Err(AllocError);
    };
    let Ok(()) = push_number_behind(out, b" #", number) else {
        return Err(AllocError);
    };
    push_shape_behind(out, b" ", shape)
}

fn push_take(out: &mut Vec<u8>, name: BoxName, number: u64) -> Result<(), AllocError>
    ensures { OnOk result (out.new.items ≡ out.old.items ++ act_text (act.Take name number)) }
{
    let Ok(()) = push_box_behind(out, b"take ", name) else {
        return Err(AllocError);
    };
    push_number_behind(out, b" #", number)
}

fn push_start(out: &mut Vec<u8>, task: u32, shape: &[Token]) -> Result<(), AllocError>
    ensures { OnOk result (out.new.items ≡ out.old.items ++ act_text (act.Start task shape.now)) }
{
    let Ok(()) = push_number_behind(out, b"start ", u64::from(task)) else {
        return Err(AllocError);
    };
    push_shape_behind(out, b" ", shape)
}

fn push_end(out: &mut Vec<u8>, cause: EndCause) -> Result<(), AllocError>
    ensures { OnOk result (out.new.items ≡ out.old.items ++ act_text (act.End cause)) }
{
    let Ok(()) = out.extend_from_slice(b"end ") else {
        return Err(AllocError);
    };
    out.extend_from_slice(cause.word().as_bytes())
}

fn push_bound(out: &mut Vec<u8>, name: BoxName, most: u32) -> Result<(), AllocError>
    ensures { OnOk result (out.new.items ≡ out.old.items ++ act_text (act.Bound name most)) }
{
    let Ok(()) = push_box_behind(out, b"bound ", name) else {
        return Err(AllocError);
    };
    push_number_behind(out, b" ", u64::from(most))
}

fn push_act(out: &mut Vec<u8>, act: &Act) -> Result<(), AllocError>
    ensures { OnOk result (out.new.items ≡ out.old.items ++ act_text act.now) }
{
    match act {
        Act::Put(name, number, shape) => push_put(out, *name, *number, shape.as_slice()),
        Act::Take(name, number) => push_take(out, *name, *number),
        Act::Empty(name) => push_box_behind(out, b"empty ", *name),
        Act::Start(task, shape) => push_start(out, *task, shape.as_slice()),
        Act::Print(shape) => push_shape_behind(out, b"print ", shape.as_slice()),
        Act::End(cause) => push_end(out, *cause),
        Act::Wait(name) => push_box_behind(out, b"waits ", *name),
        Act::Bound(name, most) => push_bound(out, *name, *most),
    }
}

pub(crate) fn push_entry(out: &mut Vec<u8>, entry: &Entry) -> Result<(), AllocError>
    ensures { OnOk result (out.new.items ≡ out.old.items ++ entry_text entry.now) }
{
    let Ok(()) = push_number(out, u64::from(entry.task)) else {
        return Err(AllocError);
    };
    let Ok(()) = push_byte(out, b' ') else {
        return Err(AllocError);
    };
    let Ok(()) = push_act(out, &entry.act) else {
        return Err(AllocError);
    };
    push_byte(out, b'\n')
}

// The lines of some entries.
fn lines(alloc: Global, entries: &[Entry]) -> Result<Vec<u8>, AllocError>
    ensures { IfOk result (λ text. text.items ≡ journal_text entries.now) }
{
    let mut out = Vec::new(alloc);
    for entry in entries {
        let Ok(()) = push_entry(&mut out, entry) else {
            return Err(AllocError);
        };
    }
    Ok(out)
}

/// The text of a journal, in ASCII: a line for each entry, in their order.
///
/// A line is the number of the task, a space, the act and a line feed. Numbers are decimal.
pub fn text(alloc: Global, entries: &Vec<Entry>) -> Result<Vec<u8>, NoMemory>
    requires { IsReadable entries.now.items }
    ensures { IfOk result (λ text. text.items ≡ journal_text entries.now.items) }
{
    match lines(alloc, entries.as_slice()) {
        Ok(text) => Ok(text),
        Err(_) => Err(NoMemory),
    }
}

/// A law, and no work: no two journals have one text.
pub fn texts_differ()
    ensures { HasOneJournal }
{}

/// A law, and no work: the text of a tree in preorder is each object's name with the texts of its values
/// in parentheses, and commas between them.
pub fn values_are_joined()
    ensures { ValuesAreJoined }
{}

/// A law, and no work: the tokens of one value are those of one tree in preorder, and no other tokens are.
pub fn shapes_are_values()
    ensures { ShapesAreValues }
{}
