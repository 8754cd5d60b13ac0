//! Theorems that no call needs, and examples that are computed: doors for a reader. No program calls them to do work.
#![tactic(auto)]

pub mod instruction_examples;
pub mod link_examples;
pub mod linked_weaving;
pub mod mailbox_histories;
pub mod run_examples;
pub mod serving_weaver;
pub mod weaving;
pub mod woven_files;
