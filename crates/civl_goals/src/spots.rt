// The places of notes.
ghost use Rattle.std.specs.Prelude.{◌≡◌, [], IfOk, OnOk};
ghost use Rattle.civl_goals.specs.Spots.{spot_of, spots_in, has_spot, with_spot, with_notes};

use civl_outlines::Note;
use civl_tree::Memory;
use indexmap::IndexSet;
use std::alloc::Global;

/// Where a note stands: the number of an item, and of a statement in it.
#[derive(Clone, Copy, Debug, PartialEq, Eq, Hash)]
pub struct Spot {
    pub item: u32,
    pub statement: u32,
}

/// The place of a note.
pub fn spot_of(note: &Note) -> Spot
    ensures { result ≡ spot_of note.now }
{
    Spot {
        item: note.item,
        statement: note.statement,
    }
}

/// A set of places of notes.
#[derive(Drop)]
pub(crate) struct Spots {
    keys: IndexSet<Spot>,
}

impl Spots {
    pub(crate) fn new(alloc: Global) -> Spots
        ensures { spots_in result ≡ [] }
    {
        Spots {
            keys: IndexSet::new(alloc),
        }
    }

    /// Whether the place is in the set.
    pub(crate) fn has(&self, spot: Spot) -> bool
        ensures { result ≡ has_spot (spots_in self.now) spot }
    {
        self.keys.contains(&spot)
    }

    /// Adds a place. The answer is whether it was there.
    pub(crate) fn add(&mut self, spot: Spot) -> Result<bool, Memory>
        ensures old { IfOk result (λ old. old ≡ has_spot (spots_in self.old) spot) }
        ensures spots { OnOk result (spots_in self.new ≡ with_spot (spots_in self.old) spot) }
    {
        let added = self.keys.insert(spot)?;
        Ok(!added)
    }
}

/// The places of these notes.
pub(crate) fn spots_of(alloc: Global, notes: &[Note]) -> Result<Spots, Memory>
    ensures { IfOk result (λ spots. spots_in spots ≡ with_notes [] notes.now) }
{
    let mut spots = Spots::new(alloc);
    for note in notes {
        spots.add(spot_of(note))?;
    }
    Ok(spots)
}
