//! What conditions assume, evaluated on values: the stores that these give to globals ([`stores`]), the frames
//! that they give to procedures ([`frames`]), the notes of procedures
//! ([`Noted`]), the invariants of a step ([`invariants`]), permissions ([`permissions`]), whether a store is initial
//! ([`is_initial`]), all that is assumed at a cut ([`is_assumed`]), and whether the target of a condition is lost ([`target_lost`]).
#![tactic(auto)]

mod begun;
pub mod frames;
mod initial;
pub mod invariants;
mod noted;
pub mod permissions;
pub mod stores;
mod targets;

pub use begun::{Begun, Place, is_assumed, note_holds, owned, push_held, refined_action};
pub use initial::is_initial;
pub use noted::{Noted, plain, steady};
pub use targets::{push_target_owned, target_lost};
