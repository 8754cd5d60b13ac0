//! The rules of isolation and pausing, for authors (docs/RULES.md).

use crate::advice::{Advice, advise};

const OTHER: usize = 13;

// The name of each rule, from 1 on.
const NAMES: [&str; 14] = [
    "",
    "NotFree",
    "Gone",
    "SafeChanged",
    "Cycle",
    "SharedArguments",
    "KindMixed",
    "NotCuttable",
    "FreeReceiver",
    "LeftOnStack",
    "PausableInPlain",
    "UninitAcrossPause",
    "ShapeLimit",
    "",
];

/// The name of a rule; nothing where there is no such rule.
pub fn name_of(rule: usize) -> &'static str {
    NAMES[rule.min(OTHER)]
}

fn of_giving(rule: usize) -> Advice {
    match rule {
        1 => advise(
            "only a whole tree is given away or stored: this one is part of another, or only lent to this method",
            "cut it off first (Node c = p.next; p.next = null;), or write @Free at the parameter that is kept or sent",
        ),
        2 => advise(
            "it was given away before, or may have moved",
            "read what is needed before it is given away, or make a new object",
        ),
        3 => advise(
            "an object that is only lent is changed: a message in it is replaced",
            "write @Cuttable at the parameter, or at the method where the object is `this`",
        ),
        _ => advise(
            "an object is hung below itself",
            "hold a number, or a mailbox, in place of the way back",
        ),
    }
}

fn of_calls(rule: usize) -> Advice {
    match rule {
        5 => advise(
            "two arguments are parts of one tree, and the method may cut or keep one of them",
            "pass two trees, or let the method read the one from the other",
        ),
        6 => advise(
            "a message, a task or an array becomes an ordinary object, or an ordinary object becomes one of these",
            "write the message's own type, or Message; hold messages in a message or in an array of messages",
        ),
        7 => advise(
            "an object that is only lent is passed on to a method that may cut from it",
            "write @Cuttable at this method's parameter too, or at this method where the object is `this`",
        ),
        _ => advise(
            "a method that pauses may not own the object on which it is called",
            "make it a static method with a @Free parameter",
        ),
    }
}

fn of_code(rule: usize) -> Advice {
    match rule {
        9 => advise(
            "one part of the expression gives away what another part of it still needs",
            "compute the parts one by one, into variables",
        ),
        10 => advise(
            "a method that doesn't pause calls one that does",
            "write `throws Pausable` at this method",
        ),
        11 => advise(
            "an argument of `new` pauses while the object is half made",
            "compute the argument first, into a variable",
        ),
        _ => advise(
            "there are too many ways through this method on which variables hold one tree or another",
            "split the method, or let variables end before others begin",
        ),
    }
}

/// What a rule asks, and what to write instead.
pub fn advice_of(rule: usize) -> Advice {
    if rule <= 4 {
        of_giving(rule)
    } else if rule <= 8 {
        of_calls(rule)
    } else {
        of_code(rule)
    }
}
