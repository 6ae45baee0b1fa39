//! Where a text is refused, and why, in lines: the place, what is wrong there, and the line itself with a caret under it.
//!
//! The definitions stand in specs/ (`Refusals`, `Heavy`, `Scripts`, `Outlines`). [`put_refusal`] tells where a program breaks a static
//! rule, [`put_at`] and [`put_fault`] what is wrong at a token or a byte, and [`put_expected`] all that may stand at a place.
//! [`put_heavy`] and [`put_heavy_goal`] tell what a formula that weighs too much is about, [`put_misfit`] which entry or move of a script
//! doesn't fit, and [`put_unfit`] and [`put_descending`] which rule an outline breaks.
#![tactic(auto)]

mod faults;
mod heavy;
pub mod laws;
mod misfit;
mod outlines;
mod refusals;
mod scripts;
mod spot;

pub use faults::{put_expected, put_fault};
pub use heavy::{put_heavy, put_heavy_goal};
pub use misfit::put_misfit;
pub use outlines::{put_descending, put_unfit};
pub use refusals::{put_no_initial, put_refusal};
pub use scripts::part_start;
pub use spot::put_at;
