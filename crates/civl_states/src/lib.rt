//! The terms of states: of a store, of a frame, of an action at a store, and of what stands at the beginning of a path. A
//! condition's variables are numbered in the order of its list.
#![tactic(auto)]

mod beginning;
mod beginning_choices;
mod beginning_frames;
mod beginning_places;
mod choices;
pub mod formula_parts;
mod globals;
mod invariants;
mod invoked;
mod items;
mod notes;
mod path_sorts;
mod running;
pub mod sort_groups;
mod sorts;
mod stores;

pub use beginning::{Beginning, begin};
pub use beginning_frames::{flag, inner_sorts, zeros};
pub use choices::{Choices, Chosen};
pub use globals::same_globals;
pub use invariants::{and_hold, invariants_at};
pub use invoked::{Invoked, invocation};
pub use items::{Which, global_items, incoming, input_items, param_items, with_words};
pub use notes::{View, global_note, note};
pub use running::{gate_at, run};
pub use sorts::variable_sorts;
pub use stores::{Existing, existing_count, store};
