//! Faults of linking, of class files, of weaving and of the main class, in terms of Java.

use crate::advice::{Advice, advise};
use crate::left_out::left_out;
use crate::missing::{missing, no_member};

fn twice(name: &[u8]) -> Advice {
    if name.starts_with(b"kilim/") || name.starts_with(b"java/") {
        return advise(
            "a class that is built in is given too",
            "leave its file out: javac -implicit:none makes none for the classes of java/kilim",
        );
    }
    advise(
        "it is declared twice: a class file is named twice, or two of them have one class",
        "name each class once",
    )
}

fn field_kind(field: &[u8]) -> Advice {
    if field.starts_with(b"this$") || field.starts_with(b"this\\u0024") {
        return advise(
            "an inner class, which holds the object around it",
            "a static class, which gets what it needs by its constructor",
        );
    }
    advise(
        "a field of this class may not hold its type: a message or task holds numbers, texts, mailboxes, messages and arrays of these, another class \
         numbers, texts, mailboxes and objects of other classes",
        "make the class a message, or hold a mailbox in place of a task",
    )
}

fn overriding(method: &[u8]) -> Advice {
    if method.starts_with(b"execute(") {
        return advise(
            "execute has no `throws Pausable`, or an annotation that Task.execute doesn't have",
            "public void execute() throws Pausable",
        );
    }
    advise(
        "it differs from the method that it overrides: in `throws Pausable`, in @Free, @Cuttable or @Safe, in `static`, or that one is final",
        "write the same on both",
    )
}

// Kinds without a name behind them.
fn bare(kind: &[u8]) -> Advice {
    match kind {
        b"circular" => advise(
            "the class is its own superclass, over others or itself",
            "compile all sources together, anew",
        ),
        b"both" => advise(
            "the class is a task and a message",
            "two classes: a task is started, a message is put",
        ),
        b"super" => advise(
            "the class may not extend that one: a message extends a message or Object, another class one of its own sort or Object",
            "hold it in a field, or make both of one sort",
        ),
        b"name" => advise("no class may have that name", "another name"),
        _ => advise(
            "the class doesn't link",
            "compile all sources together, anew",
        ),
    }
}

/// What a report of linking says, by its kind and the word behind that.
pub fn link_advice(kind: &[u8], name: &[u8]) -> Advice {
    match kind {
        b"twice" => twice(name),
        b"missing" => missing(name),
        b"no-member" => no_member(name),
        b"left-out" => left_out(name),
        b"field-kind" => field_kind(name),
        b"override" => overriding(name),
        b"code" => advise(
            "this is no code that a compiler makes",
            "compile the source anew",
        ),
        b"descriptor" => advise(
            "a method has more than 255 parameters, or a type is none",
            "fewer parameters: hold them in a message or in an object",
        ),
        b"abstract" => advise(
            "this abstract method is left in a class that isn't abstract, or is private or static",
            "write the method, or make the class abstract",
        ),
        b"handler" => advise(
            "an exception table is none that a compiler makes",
            "compile the source anew",
        ),
        _ => bare(kind),
    }
}

/// What a report of a class file says, by its kind.
pub fn class_advice(kind: &[u8]) -> Advice {
    match kind {
        b"version" => advise(
            "it was made for another version of Java than 8",
            "javac --release 8",
        ),
        b"too-large" => advise("it has more than 16,777,216 bytes", "split the class"),
        b"magic" => advise("it is no class file", "name files that end in .class"),
        _ => advise(
            "it is no whole class file: damaged, cut off, or made by another tool",
            "compile the source anew",
        ),
    }
}

/// What a report of weaving says, by its kind.
pub fn weave_advice(kind: &[u8]) -> Advice {
    match kind {
        b"too-long" => advise(
            "the method gets too long when it is woven: its code, its switches, and each pausing call with all variables",
            "split the method, so that the parts that pause are short",
        ),
        b"arguments" => advise(
            "a method that pauses has 255 parameters, and no room for one more",
            "fewer parameters",
        ),
        _ => advise(
            "the class file gets too large when it is woven",
            "split the class",
        ),
    }
}

/// What is said where there is no main class.
pub fn main_advice() -> Advice {
    advise(
        "no class of that name can be run: it isn't among the files, isn't a task, is abstract, or has no constructor without arguments",
        "--main=app/Main names the class as its file does, with / between packages; it extends Task",
    )
}
