//! What a woven class file needs of its constant pool (JVMS 4.4), and how it is found there or added at the end.

mod adding;
pub mod growth;
mod lookup;
mod need;

pub use adding::with_needs;
pub use lookup::{index_of, text_index};
pub use need::Need;
