//! A woven fiber does what the thread of its course does: definitions, lemmas, and a law. kilim_theorems::weaving states the others.
#![tactic(auto)]

pub mod woven_served;
