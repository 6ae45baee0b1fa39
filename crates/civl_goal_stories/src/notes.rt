// The note that is written before a statement.
ghost use Rattle.std.specs.Prelude.{◌≡◌, ◌<◌, ◌^◌, ◌&&◌, length, nat_eq};
ghost use Rattle.std.specs.Option.{option_map};
ghost use Rattle.civl_tree.specs.Numbering.{proc_item};
ghost use Rattle.civl_tree.specs.SpellingProgram.{spell_program};
ghost use Rattle.civl_outlines.specs.SpellingOutline.{spell_outline};
ghost use Rattle.civl_reasons.specs.inner.Told.{subformula};
ghost use Rattle.civl_goal_stories.specs.Places.{note_before, note_number};

use crate::places::note_at;
use civl_outlines::{Note, Outline};
use civl_reasons::Part;
use civl_tree::Program;

/// The number of a procedure, as an item.
pub(crate) fn proc_item(program: &Program, number: usize) -> usize
    requires short { length (spell_program program.now) < 2 ^ 64 }
    requires there { number < length program.now.procs }
    ensures { result ≡ proc_item program.now number }
{
    program.globals.len() + 1 + program.invariants.len() + program.actions.len() + number
}

/// Whether a note stands before the statement with this number of this item.
fn is_before(note: &Note, item: usize, statement: usize) -> bool
    ensures { result ≡ (nat_eq note.now.item item && nat_eq note.now.statement statement) }
{
    note.item as usize == item && note.statement as usize == statement
}

/// The number of the note that is written before a statement of this procedure.
pub(crate) fn note_number(outline: &Outline, number: usize, statement: usize) -> Option<usize>
    requires short { length (spell_outline outline.now) < 2 ^ 64 }
    requires there { number < length outline.now.program.procs }
    ensures { result ≡ note_number outline.now number statement }
{
    let item = proc_item(&outline.program, number);
    outline
        .notes
        .as_slice()
        .iter()
        .position(|note| is_before(note, item, statement))
}

/// What this note says.
pub(crate) fn note_before(outline: &Outline, number: usize, statement: usize) -> Option<Part<'_>>
    requires short { length (spell_outline outline.now) < 2 ^ 64 }
    requires there { number < length outline.now.program.procs }
    ensures { option_map subformula result ≡ note_before outline.now number statement }
{
    match note_number(outline, number, statement) {
        Some(found) => note_at(outline, found),
        None => None,
    }
}
