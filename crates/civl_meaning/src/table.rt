// The table of what stands at the places of a program's procedures.

use crate::found::Found;

/// What a step finds at the places of a procedure: the entry at a place is what it finds there. At the exit, the place
/// behind the last entry, it finds nothing.
#[derive(Drop)]
pub struct BodyPlaces<'p> {
    pub(crate) found: Vec<Option<Found<'p>>>,
}

/// What a step finds at the places of all procedures of a plain program, in the order of the procedures.
#[derive(Drop)]
pub struct Places<'p> {
    pub(crate) procs: Vec<BodyPlaces<'p>>,
}
