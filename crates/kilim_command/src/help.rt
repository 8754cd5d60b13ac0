//! The texts that the program writes by itself.

/// What `--help` writes: at most 24 lines of 80 columns.
pub const HELP: &str = "kilim checks, weaves and runs Java class files of isolation-typed actors.

  kilim check FILE..             writes accepted CLASSES METHODS, or faults
  kilim weave --to=DIR FILE..    writes woven class files below DIR
  kilim run --main=NAME [--workers=W] [--steps=N] FILE.. [-- INT..]
  kilim replay --main=NAME --journal=FILE [--steps=N] FILE.. [-- INT..]
  kilim save --main=NAME --entries=K --image=FILE [--steps=N] FILE.. [-- INT..]
  kilim resume --image=FILE [--workers=W]
  kilim demo --number=D [--workers=W]    runs a program made from a number
  kilim --help, kilim --version          write this text, the version

run writes the journal of a task class, a line for each event: 0 print 7. replay
writes whole LINES, or which line is wrong. save stops a run at K entries, and
writes its image; resume goes on from it. NAME is the internal name of the main
class, as app/Main. FILE is a class file: javac --release 8 -g:none. W is from 1
to 16, or else 1; N is the most instructions of each task, or else 1000000.

Status  Standard error  Meaning
0                       the work was done, and its text was written whole
1                       a report was written: what is wrong with the files
2       usage           the words aren't as above
3       read            a file can't be read
4       write           the text, or a file, can't be written
5       memory          there isn't enough memory
";

/// What `--version` writes.
pub const VERSION: &str = "kilim 0.1.0\n";
