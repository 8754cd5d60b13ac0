//! A running fiber and the thread of its course, up to the names of objects. Definitions in `specs/`, and lemmas about them in `proofs/`; there is no code.
