//! What the class file of a woven class is: definitions, and no code that does work.
#![tactic(auto)]
