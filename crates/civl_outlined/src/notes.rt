// The weights of notes, by their places.
ghost use Rattle.std.specs.Prelude.{◌≡◌, None, IfOk, OnOk};
ghost use Rattle.std.specs.Option.{option_copied};
ghost use Rattle.civl_tree.specs.Numbered.{IsNumbered};
ghost use Rattle.civl_tree.specs.Numbering.{proc_item};
ghost use Rattle.civl_goals.specs.declared.spots.Spot.{Spot as Place};
ghost use Rattle.civl_outlined.specs.inner.Notes.{item_proc, weight_in, IsPut, IsNoted, IsAdded, AreNotes, IsBefore};

use civl_goals::{Spot, spot_of};
use civl_outlines::Note;
use civl_tree::{Memory, Proc, Program};
use civl_types::view::View;
use civl_weighing::exprs::weight_of;
use civl_weighing::weight::Weight;
use indexmap::IndexMap;
use std::alloc::Global;

/// How many items stand before the procedures.
pub(crate) fn first_item(program: &Program) -> usize
    requires { IsNumbered program.now }
    ensures { result ≡ proc_item program.now 0 }
{
    program.globals.len() + 1 + program.invariants.len() + program.actions.len()
}

/// The procedure that is this item.
fn item_proc(program: &Program, item: u32) -> Option<&Proc>
    requires { IsNumbered program.now }
    ensures { option_copied result ≡ item_proc program.now item }
{
    let first = first_item(program);
    let item = item as usize;
    if item < first {
        None
    } else {
        program.procs.as_slice().get(item - first)
    }
}

/// The weights of the notes that stand in procedures, by their places.
#[derive(Drop)]
pub(crate) struct Notes {
    weights: IndexMap<Spot, Weight>,
}

impl Notes {
    /// No weights.
    fn new(alloc: Global) -> Notes
        ensures { (spot : Place) → weight_in result spot ≡ None }
    {
        Notes {
            weights: IndexMap::new(alloc),
        }
    }

    /// Puts a weight to a place.
    fn put(&mut self, spot: Spot, weight: Weight) -> Result<(), Memory>
        ensures { OnOk result (IsPut spot weight self.old self.new) }
    {
        self.weights.insert(spot, weight)?;
        Ok(())
    }

    /// Puts the weight of a note of this procedure to its place.
    #[tactic(auto, using(crate::proofs::Noted::noted))]
    fn insert(&mut self, program: &Program, proc: &Proc, note: &Note) -> Result<(), Memory>
        ensures { OnOk result (IsNoted program.now proc.now note.now self.old self.new) }
    {
        let weight = weight_of(&View::Note(program, proc), &note.expr);
        self.put(spot_of(note), weight)
    }

    /// Puts the weight of a note to its place, where it stands in a procedure.
    #[tactic(auto, using(crate::proofs::Noted::added_some, crate::proofs::Noted::added_none))]
    fn add(&mut self, program: &Program, note: &Note) -> Result<(), Memory>
        requires { IsNumbered program.now }
        ensures { OnOk result (IsAdded program.now note.now self.old self.new) }
    {
        match item_proc(program, note.item) {
            Some(proc) => self.insert(program, proc, note),
            None => Ok(()),
        }
    }

    /// The weight at a place, where there is one.
    fn found(&self, spot: Spot) -> Option<Weight>
        ensures { result ≡ weight_in self.now spot }
    {
        self.weights.get(&spot).copied()
    }

    /// The weight at a place, or 1 where there is none: that of `true`.
    #[tactic(auto, using(crate::proofs::Noted::before_some, crate::proofs::Noted::before_none))]
    pub(crate) fn at(&self, spot: Spot) -> Weight
        ensures { IsBefore self.now spot result }
    {
        match self.found(spot) {
            Some(weight) => weight,
            None => Weight::of(1),
        }
    }
}

/// The weights of these notes. Of notes at one place it is the first that counts, so it goes from the last to the first.
pub(crate) fn notes_of(alloc: Global, program: &Program, notes: &[Note]) -> Result<Notes, Memory>
    requires { IsNumbered program.now }
    ensures { IfOk result (AreNotes program.now notes.now) }
{
    let mut found = Notes::new(alloc);
    let mut left = notes.len();
    while left > 0 {
        left -= 1;
        let note = &notes[left];
        found.add(program, note)?;
    }
    Ok(found)
}
