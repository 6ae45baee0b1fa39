//! The values of a condition's variables: as they are shown, and as they are read back from bits.
//!
//! The text of a value is `true`, `false`, `value:width` for a word, and for a row its cells in brackets ([`value_text`]). Bits that
//! make the clauses of a term true give values to its variables ([`read_back`]).

pub mod laws;
mod reading;
mod shown;

pub use reading::read_back;
pub use shown::{put_value_text, value_text};
