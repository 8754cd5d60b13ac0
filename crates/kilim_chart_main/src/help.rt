//! The texts that the program writes by itself.

/// What `--help` writes.
pub const HELP: &str = "kilim-chart shows the journal of a run, as kilim run writes it.

    kilim-chart [--from=N] [--to=M] [--task=T].. JOURNAL
                                   draws it, as an SVG on standard output
    kilim-chart --waits JOURNAL    says how the tasks ended, and who waits for whom
    kilim-chart --help, --version  write this text, the version

The SVG has a column for each task and a row for each line of the journal: an
arrow from each put to its take and from each start to its task, a colour for
each mailbox, a bar where a task ends (red where not by done) or waits. A
browser shows the whole line under the pointer. N and M are the first and the
last line that is drawn, T is a task whose lines are drawn, else all are.
Without --to at most 400 rows are drawn, and a note says how many weren't.

Status  Standard error  Meaning
0                       the SVG or the text was written
1                       journal N was written: line N is none of a journal
2       usage           the words aren't as above
3       read            the file can't be read
4       write           the text can't be written
5       memory          there isn't enough memory
";

/// What `--version` writes.
pub const VERSION: &str = "kilim-chart 0.1.0\n";
