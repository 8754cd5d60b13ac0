//! Lemmas on lists, options, truth values, texts and orders that several crates use. They stand in `proofs/`; there is no code.
#![tactic(auto)]
