//! Two classes that a builder makes: their bytes in hexadecimal digits, and that they link and are well typed. README.md has the classes, and
//! the program kilim_cases asks for the lines.

mod classes;
mod lines;
mod parts;

pub use lines::answer;
