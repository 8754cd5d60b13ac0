//! What the instructions do that neither make objects nor call: to a frame and a heap, a function for each or for a few
//! that differ in one word.
#![tactic(auto)]

mod jumps;
mod locals;
mod numbers;
mod objects;
mod outcome;
mod throwing;
mod types;
mod words;

pub use jumps::{
    is_none, jump_by_match, jump_by_table, jump_on_int, jump_on_null, jump_on_references,
    jump_on_two_ints,
};
pub use locals::{
    constant, increase, load_constant, load_int, load_long, load_reference, store_int, store_long,
    store_reference,
};
pub use numbers::{
    Binary, Division, Shift, Test, Unary, compare_longs, divide_ints, divide_longs, int_to_long,
    long_to_int, negate_long, one_int, shift_int, shift_long, two_ints, two_longs,
};
pub use objects::{
    array_length, index_in, narrowed, read_constant, read_field, read_int, read_long,
    read_reference, write_field, write_int, write_long, write_narrowed,
};
pub use outcome::Moved;
pub use throwing::{throw_object, thrown_cause};
pub use types::{cast, test_type, type_of, write_reference};
pub use words::{
    copy_below_one, copy_below_two, copy_two, copy_two_below_one, copy_two_below_two, copy_word,
    pop_two, pop_word, swap_words,
};
