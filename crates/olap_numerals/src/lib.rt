//! Numerals: texts that spell whole numbers, and which numbers stand for all.
//!
//! `specs/` says which number of 64 bits a text spells, which texts are numerals, how a number is written, and which
//! numbers answer every comparison with some constants as all numbers do; `laws` are theorems over these definitions. A
//! contract sees a text as its bytes, and a number as a whole number. What a name is asked for isn't known here.
#![tactic(auto)]

mod laws;
mod numbers;
mod representing;
mod values;
mod writing;

pub use laws::{number_names_exist, numbers_read_back, representatives_answer_alike};
pub use numbers::{MOST_NUMBER, number};
pub use representing::representatives;
pub use values::value;
pub use writing::{numeral, numerals};
