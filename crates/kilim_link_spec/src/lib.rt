//! Linking: class files to a program. Definitions in `specs/`, and laws about them.
#![tactic(auto)]

mod fault;
mod laws;
mod named;
mod view;

pub use fault::{LeftOutPart, LinkFault, MemberOf, Problem};
pub use laws::{
    decoded_is_decode, linked_in_parts, none_has_a_problem, none_is_named, none_of_each_kind,
    one_program,
};
pub use named::{Body, Entries, Member, Mention, Named, Operand, Qualified};
pub use view::{ClassView, DeclaredField, DeclaredMethod, Marks};
