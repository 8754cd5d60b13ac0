//! Why bytes are no image, and why an image has no bytes.

/// Why bytes are no image: the first of these, in their order.
#[derive(Clone, Copy)]
pub enum ImageFault {
    /// There are more than 16,777,216 bytes.
    TooLarge,
    /// One of the first four bytes isn't that of `KILM`.
    Magic,
    /// The version isn't 1.
    Version(u16),
    /// The bytes end inside a part.
    Cut,
    /// Bytes follow the last part, from this place on, from 0.
    Extra(usize),
    /// The most instructions of a task, the number of integers or of files, or the name of the main class isn't one that the words of a run
    /// may give.
    Number,
    /// The first line of the journal that is no entry's, or says who waits, from 1 on.
    Journal(usize),
    /// Want of memory.
    Memory,
}

/// Why an image has no bytes.
#[derive(Clone, Copy)]
pub enum WriteFault {
    /// It has so many bytes, more than 16,777,216.
    TooLarge(usize),
    /// Want of memory.
    Memory,
}
