//! The lines of stories: where each points, what of the source it shows, and what it says; and how they are written.
//!
//! The definitions stand in specs/ (`Rendered`, `Pieces`). A story is a list of [`Line`]s; [`put_lines`] writes it for people or
//! for editors, and [`push_parts`] tells why a formula is false.
#![tactic(auto)]

mod line;
mod naming;
mod parts;
mod pieces;
mod render;
mod source;

pub use line::{Kind, Line, Shown};
pub use naming::{Naming, as_written, of_other};
pub use parts::{push_named_parts, push_parts};
pub use pieces::{put_change, put_equation};
pub use render::{Form, put_lines};
pub use source::{Text, offset_of, place_of, put_place, shown_text, without_return};
