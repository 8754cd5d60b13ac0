//! Each number of a journal is in the range of its type: a journal in memory is one, so this only tells contracts so.

ghost use Rattle.std.specs.Prelude.{◌<◌, ◌^◌};
ghost use Rattle.kilim_run_journal.specs.Readable.{UnitsFit, BoxFits, TokenFits, ShapeFits, ActFits, JournalFits};

use crate::{Act, Entry};
use kilim_program::BoxName;
use kilim_run_state::Token;

fn unit_fits(unit: &u16)
    ensures { unit.now < 2 ^ 16 }
{
    let _unit = *unit;
}

fn units_fit(units: &[u16])
    ensures { UnitsFit units.now }
{
    for unit in units {
        unit_fits(unit);
    }
}

fn box_fits(mailbox: &BoxName)
    ensures { BoxFits mailbox.now }
{
    let _task = mailbox.task;
    let _number = mailbox.number;
}

fn token_fits(token: &Token)
    ensures { TokenFits token.now }
{
    match token {
        Token::Open(name) => units_fit(name.as_slice()),
        Token::Close | Token::Null => {}
        Token::Int(number) => {
            let _number = *number;
        }
        Token::Long(number) => {
            let _number = *number;
        }
        Token::Text(units) => units_fit(units.as_slice()),
        Token::Box(mailbox) => box_fits(mailbox),
    }
}

fn tokens_fit(tokens: &[Token])
    ensures { ShapeFits tokens.now }
{
    for token in tokens {
        token_fits(token);
    }
}

fn act_fits(act: &Act)
    ensures { ActFits act.now }
{
    match act {
        Act::Put(mailbox, number, shape) => {
            let _number = *number;
            box_fits(mailbox);
            tokens_fit(shape.as_slice());
        }
        Act::Take(mailbox, number) => {
            let _number = *number;
            box_fits(mailbox);
        }
        Act::Empty(mailbox) => box_fits(mailbox),
        Act::Start(task, shape) => {
            let _task = *task;
            tokens_fit(shape.as_slice());
        }
        Act::Print(shape) => tokens_fit(shape.as_slice()),
        Act::End(_) => {}
        Act::Wait(mailbox) => box_fits(mailbox),
        Act::Bound(mailbox, most) => {
            let _most = *most;
            box_fits(mailbox);
        }
    }
}

fn task_fits(entry: &Entry)
    ensures { entry.now.task < 2 ^ 32 }
{
    let _task = entry.task;
}

/// Tells that each number of a journal is in the range of its type, and does nothing.
pub fn journal_fits(entries: &[Entry])
    ensures { JournalFits entries.now }
{
    for entry in entries {
        task_fits(entry);
        act_fits(&entry.act);
    }
}
