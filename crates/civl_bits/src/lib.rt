//! Words of 1 to 32 bits, rows of words, and values: the arithmetic that everything above is judged against.
//!
//! The operations on words are those of SMT-LIB's theory FixedSizeBitVectors, at every width. A row is
//! an array of its theory ArraysEx, with one cell for each word of 1 to 6 bits. No call takes memory.
#![tactic(auto)]

pub mod laws;
mod row;
mod value;
mod word;

pub use row::Row;
pub use value::Value;
pub use word::Word;
