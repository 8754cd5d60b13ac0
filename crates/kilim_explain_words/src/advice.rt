//! What is said of a fault.

/// What is wrong, and what to write instead.
#[derive(Clone, Copy)]
pub struct Advice {
    pub what: &'static str,
    pub instead: &'static str,
}

/// The two together.
pub fn advise(what: &'static str, instead: &'static str) -> Advice {
    Advice { what, instead }
}
