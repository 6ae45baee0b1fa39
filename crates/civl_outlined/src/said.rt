// What an outline says, weighed.
ghost use Rattle.std.specs.Prelude.{◌≡◌, ◌<◌, length, IfOk};
ghost use Rattle.civl_tree.specs.Numbered.{IsNumbered};
ghost use Rattle.civl_tree.specs.Numbering.{proc_item};
ghost use Rattle.civl_meaning.specs.Meaning.{proc_number};
ghost use Rattle.civl_goals.specs.Weights.{note_before_weight, first_note_weight};
ghost use Rattle.civl_weighing.specs.Weighing.{Weighs};
ghost use Rattle.civl_outlined.specs.inner.Said.{IsSaid, IsOf};

use crate::notes::{Notes, first_item, notes_of};
use civl_goals::Spot;
use civl_outlines::Outline;
use civl_tree::{Memory, Name, Program};
use civl_types::names::same_name;
use civl_types::view::View;
use civl_weighing::exprs::weights_of;
use civl_weighing::weight::Weight;
use std::alloc::Global;

/// An outline of a program, with the weight of its holds together and those of its notes.
#[derive(Drop)]
pub(crate) struct Said<'a> {
    pub program: &'a Program,
    pub outline: &'a Outline,
    pub holds: Weight,
    pub notes: Notes,
}

/// The number of the procedure at this place, as an item.
fn proc_item(program: &Program, place: usize) -> u32
    requires numbered { IsNumbered program.now }
    requires place { place < length program.now.procs }
    ensures { result ≡ proc_item program.now place }
{
    (first_item(program) + place) as u32
}

/// The weight of the note before a statement of the procedure at this place.
pub(crate) fn note_before(said: &Said<'_>, place: usize, statement: u32) -> Weight
    requires said { IsSaid said.now }
    requires place { place < length said.now.program.now.procs }
    ensures { Weighs result (note_before_weight said.now.program.now said.now.outline.now place statement) }
{
    let item = proc_item(said.program, place);
    said.notes.at(Spot { item, statement })
}

/// The weight of the first note of the procedure of this name.
pub(crate) fn first_note(said: &Said<'_>, name: &Name) -> Weight
    requires { IsSaid said.now }
    ensures { Weighs result (first_note_weight said.now.program.now said.now.outline.now (proc_number said.now.program.now name.now)) }
{
    let procs = said.program.procs.as_slice();
    for (place, proc) in procs.iter().enumerate() {
        if same_name(&proc.name, name) {
            return note_before(said, place, 0);
        }
    }
    Weight::of(1)
}

/// What an outline says of a program.
pub(crate) fn weighed_outline<'a>(
    alloc: Global,
    program: &'a Program,
    outline: &'a Outline,
) -> Result<Said<'a>, Memory>
    requires { IsNumbered program.now }
    ensures of { IfOk result (IsOf program.now outline.now) }
    ensures said { IfOk result IsSaid }
{
    let notes = notes_of(alloc, program, outline.notes.as_slice())?;
    Ok(Said {
        program,
        outline,
        holds: weights_of(&View::Globals(program), outline.holds.as_slice()),
        notes,
    })
}
