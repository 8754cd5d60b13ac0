//! What a class says of a key.

/// What a class says of a key: a value, or that there is none from here down.
#[derive(Clone, Copy)]
pub struct Entry {
    /// The key.
    pub key: u32,
    /// Its value, none where there is none from here down.
    pub value: Option<u32>,
}
