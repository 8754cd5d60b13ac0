//! The texts that the program writes by itself.

/// What `--help` writes.
pub const HELP: &str =
    "kilim-explain checks Java class files, and says what is wrong with them in Java.

    kilim-explain [--source=DIR] [--main=NAME] FILE..
                                      does what kilim check does
    kilim-explain --help, --version   write this text, the version

FILE is a class file, written by javac --release 8 -g: -g has it know the lines
and the names of variables. Sources are looked for beside the class files, and
below DIR. With --main the class files are woven too, as kilim run does first,
and NAME is looked for as the main class, as app/Main.

Before each line of the report stands what it means: the file and the line, the
rule, the method, the line's text, the variable, where its object was given
away, the way there by lines, and what to write instead. A terminal shows the
first line of each in bold letters, unless NO_COLOR is set.

Status  Standard error  Meaning
0                       accepted CLASSES METHODS was written
1                       a report was written, explained
2       usage           the words aren't as above
3       read            a class file can't be read
4       write           the text can't be written
5       memory          there isn't enough memory
";

/// What `--version` writes.
pub const VERSION: &str = "kilim-explain 0.1.0\n";
