//! Classes and members that aren't there, in terms of Java.

use crate::advice::{Advice, advise};

/// What a class stands for that is neither given nor built in.
pub fn missing(name: &[u8]) -> Advice {
    match name {
        b"java/lang/StringBuilder" | b"java/lang/StringBuffer" => advise(
            "texts are joined by +",
            "one Sys.print for each part: no text is made while a program runs",
        ),
        b"java/lang/Enum" => advise("an enum", "static final int constants"),
        b"java/lang/System" => advise("System is used", "Sys.print for System.out.println"),
        b"java/lang/Math" => advise("Math is used", "a method of your own"),
        b"java/lang/Integer" | b"java/lang/Long" | b"java/lang/Boolean" | b"java/lang/Character" =>
            {
                advise(
                    "a number as an object, or a method on numbers",
                    "int, long, boolean or char, and methods of your own",
                )
            }
        _ => of_library(name),
    }
}

fn of_library(name: &[u8]) -> Advice {
    if name.starts_with(b"java/lang/") && name.ends_with(b"Exception") {
        return advise(
            "an exception of Java's library: it isn't there",
            "RuntimeException, or a class of your own below it",
        );
    }
    if name.starts_with(b"java/") {
        return advise(
            "a class of Java's library: it isn't there",
            "a class of your own",
        );
    }
    advise(
        "this class isn't among the files",
        "name its class file too: *.class has nested classes, as Main$Item.class",
    )
}

/// What a member stands for that its class doesn't have.
pub fn no_member(name: &[u8]) -> Advice {
    if name.starts_with(b"java/lang/String.") {
        return advise(
            "a text has length(), charAt and equals, and nothing else; a `switch` over texts needs hashCode",
            "these three, and `if` in place of `switch`",
        );
    }
    if name.starts_with(b"[") {
        return advise(
            "an array has no such method: clone()",
            "a loop that copies it",
        );
    }
    if name.starts_with(b"java/lang/Object.") {
        return advise(
            "objects have no equals, hashCode, toString or getClass",
            "a method of your own, with another name",
        );
    }
    if name.starts_with(b"java/lang/") {
        return advise(
            "an exception has constructors without arguments and with a text, getMessage(), and nothing else",
            "a field in a class of your own below it",
        );
    }
    if name.starts_with(b"kilim/") {
        return advise(
            "the classes of java/kilim have no such method or field",
            "those that java/kilim has",
        );
    }
    advise(
        "there is no such method or field in the class file that was named",
        "compile all sources together, anew",
    )
}
