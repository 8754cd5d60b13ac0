//! Why a task ended.

ghost use Rattle.std.specs.Prelude.{◌≡◌};
ghost use Rattle.kilim_run_state.specs.Cause.{word_of};

/// Why a task ended. The end of a task is an entry of the journal, never a status of the program.
#[derive(Clone, Copy)]
pub enum EndCause {
    /// `execute` returned.
    Done,
    /// The task did all of the instructions that it may do.
    Spent,
    /// A call would make the 513th frame.
    Depth,
    /// A null was dereferenced or put.
    Null,
    /// An index of an array, a string or the arguments was out of bounds.
    Index,
    /// An array size was negative.
    Size,
    /// An array would have more than 1,048,576 elements, or a tree that is put or started has more than
    /// 65,536 objects.
    Large,
    /// A `checkcast` failed.
    Cast,
    /// An element of a wrong class was stored into an array.
    Store,
    /// An integer was divided by zero.
    Zero,
    /// The task would make its 1,001st mailbox.
    Boxes,
    /// A start would make the 10,001st task.
    Tasks,
    /// A message was put into a full mailbox. No run ends so.
    Full,
    /// An exception was thrown that nothing caught. No run ends so.
    Thrown,
}

impl EndCause {
    /// The word that stands for the cause in a journal, in ASCII.
    pub fn word(self) -> &'static str
        ensures { result.now ≡ word_of self }
    {
        match self {
            EndCause::Done => "done",
            EndCause::Spent => "spent",
            EndCause::Depth => "depth",
            EndCause::Null => "null",
            EndCause::Index => "index",
            EndCause::Size => "size",
            EndCause::Large => "large",
            EndCause::Cast => "cast",
            EndCause::Store => "store",
            EndCause::Zero => "zero",
            EndCause::Boxes => "boxes",
            EndCause::Tasks => "tasks",
            EndCause::Full => "full",
            EndCause::Thrown => "thrown",
        }
    }
}
