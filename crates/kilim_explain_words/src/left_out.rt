//! What is left out, in terms of Java.

use crate::advice::{Advice, advise};

// An instruction, by what a compiler makes it of.
fn opcode(number: &[u8]) -> Advice {
    match number {
        b"178" => advise(
            "a static field is read that is no constant",
            "a static final constant, or a field of the task",
        ),
        b"179" => advise(
            "a static field is written: a static variable, a static table or an enum",
            "a field of the task, or of a message; int constants in place of an enum",
        ),
        b"185" => advise(
            "a method of an interface is called",
            "an abstract class in place of the interface",
        ),
        b"186" => advise(
            "a lambda, or a method reference",
            "an abstract class with a method, and a class for each",
        ),
        b"194" | b"195" => advise(
            "a `synchronized` block",
            "nothing: no object is shared, so a task needs no lock",
        ),
        b"197" => advise(
            "`new T[a][b]`",
            "new T[a][], and a loop that makes the rows one by one",
        ),
        b"168" | b"169" | b"201" => advise(
            "an instruction of old compilers for `finally`",
            "javac --release 8",
        ),
        _ => advise("`float` or `double`", "int or long"),
    }
}

fn of_members(word: &[u8]) -> Option<Advice> {
    match word {
        b"clinit" => Some(advise(
            "a static initializer: a static field that is computed, a static block or an enum",
            "a constant, or a field of the task",
        )),
        b"static-field" => Some(advise(
            "a static field that is no constant",
            "a static final number or text, or a field of the task",
        )),
        b"synchronized" => Some(advise(
            "a `synchronized` method",
            "leave the word out: no object is shared, so a task needs no lock",
        )),
        b"native" => Some(advise("a `native` method", "a method in Java")),
        b"pausable-constructor" => Some(advise(
            "a constructor with `throws Pausable`",
            "a static method that pauses first, and then makes the object",
        )),
        b"pausable-handlers" => Some(advise(
            "`try`, `catch` or `finally` in a method with `throws Pausable`",
            "a method that doesn't pause and catches what may be thrown",
        )),
        _ => None,
    }
}

fn of_types(word: &[u8]) -> Advice {
    match word {
        b"interface" => advise(
            "an interface of your own: only kilim.Message may be implemented, and none may be declared",
            "an abstract class",
        ),
        b"task-array" => advise("an array of tasks", "an array of their mailboxes"),
        b"fiber" => advise(
            "the class kilim.Fiber, which only woven files name",
            "the files as javac made them",
        ),
        b"parameter-annotations" => advise(
            "annotated parameters in the constructor of an inner class or an enum",
            "a static class",
        ),
        b"no-super-flag" => advise("a class of a very old compiler", "javac --release 8"),
        _ => advise("`float` or `double`", "int or long"),
    }
}

/// What the word of a part that is left out stands for.
pub fn left_out(word: &[u8]) -> Advice {
    if word.starts_with(b"opcode-") {
        return opcode(kilim_pieces::between(word, 7, word.len()));
    }
    match of_members(word) {
        Some(advice) => advice,
        None => of_types(word),
    }
}
