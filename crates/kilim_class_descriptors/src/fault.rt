//! Why a text is no descriptor.

/// Why a text is no descriptor.
#[derive(Clone, Copy)]
pub enum DescriptorFault {
    /// No descriptor goes on like this at this place, counted in UTF-16 units from 0; the text's length where it
    /// ends too early. The 256th dimension of an array is such a place.
    Malformed(usize),
    /// The parameters take so many argument slots, more than 255. A long and a double take two (JVMS 4.3.3);
    /// `this` isn't counted here: whoever knows that a method isn't static adds it.
    TooManySlots(usize),
    /// Want of memory.
    Memory,
}

/// Why no descriptor stands at the front of some units.
#[derive(Clone, Copy)]
pub enum Stop {
    Memory,
    /// No descriptor goes on like this where so many units are left.
    Left(usize),
}
