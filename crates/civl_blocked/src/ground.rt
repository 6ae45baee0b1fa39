// What stays while a run is turned.

use civl_firing::Store;
use civl_meaning::{Places, Plain};

/// The program of a layer with the table of its places, and the store in which it started.
#[derive(Clone, Copy)]
pub struct Ground<'a, 'b, 'c> {
    pub plain: &'a Plain,
    pub places: &'b Places<'a>,
    pub layer: u32,
    pub store: &'c Store,
}
