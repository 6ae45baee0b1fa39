//! Phrases over tokens: how the phrase at the front of some tokens is read, and the laws by which readers are exact.
//!
//! A reader is a function on lists of tokens (`specs/Reader.antt`), made by combinators from readers of its parts. Each
//! function of the code answers as its reader does. A reader that keeps `IsReader` (`specs/Phrase.antt`) is exact for
//! whole texts (`specs/Exact.antt`): it reads what is spelled, and its faults are at the first token that can't stand
//! there, or that opens a bracket too many. `src/example.rt` is a small grammar from its spelling to its parser.
#![tactic(auto)]

mod behind;
mod halt;
pub mod laws;
mod leaf;
mod left;
mod list;
mod phrase;
mod take;

pub use halt::{Halt, Stop};
pub use leaf::{name, number};
pub use left::Left;
pub use list::{commas, many, optional};
pub use phrase::{Headed, Phrase};
pub use take::{
    closing, end, from, is_sign, is_word, name_next, not_here, open, sign, sign_next, word,
    word_flag, word_next,
};
