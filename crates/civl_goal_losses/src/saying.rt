// What an outline says of a store, and of a frame in it.
ghost use Rattle.std.specs.Prelude.{◌≡◌, ◌<◌, ◌&&◌, length, nat_eq, option_copied};
ghost use Rattle.std.specs.List.{list_all};
ghost use Rattle.civl_tree.specs.Numbered.{IsNumbered};
ghost use Rattle.civl_tree.specs.Numbering.{proc_item};
ghost use Rattle.civl_conditions.specs.Invariants.{holds_in, holds_of_globals};
ghost use Rattle.civl_conditions.specs.paths.NoteValues.{plain_note_values};
ghost use Rattle.civl_goals.specs.Outlines.{invariant_holds, note_holds, written_before};
ghost use Rattle.civl_goal_losses.specs.inner.Frames.{framed, holds_before};

use civl_assumed::plain;
use civl_bits::Value;
use civl_firing::Store;
use civl_firing::expressions::holds;
use civl_firing::setting::at_start;
use civl_meaning::Activation;
use civl_outlines::{Note, Outline};
use civl_tree::{Expr, Proc, Program};

// ---- the invariant

/// Whether an expression is true in a store.
fn holds_of_globals(program: &Program, store: &Store, expr: &Expr) -> bool
    ensures { result ≡ holds_of_globals program.now store.now expr.now }
{
    holds(&at_start(program.globals.as_slice(), store), expr)
}

/// Whether all of these are true in a store.
fn all_hold(program: &Program, store: &Store, exprs: &[Expr]) -> bool
    ensures { result ≡ list_all (holds_of_globals program.now store.now) exprs.now }
{
    for expr in exprs {
        if !holds_of_globals(program, store, expr) {
            return false;
        }
    }
    true
}

/// Whether the invariant of the outline holds in a store.
pub(crate) fn invariant_holds(program: &Program, outline: &Outline, store: &Store) -> bool
    ensures { result ≡ invariant_holds program.now outline.now store.now }
{
    all_hold(program, store, outline.holds.as_slice())
}

// ---- notes

/// The number of the procedure at this place, as an item.
fn proc_item(program: &Program, place: usize) -> usize
    requires numbered { IsNumbered program.now }
    requires place { place < length program.now.procs }
    ensures { result ≡ proc_item program.now place }
{
    program.globals.len() + 1 + program.invariants.len() + program.actions.len() + place
}

/// Whether a note stands before the statement with this number of this item.
fn is_before(note: &Note, item: usize, statement: usize) -> bool
    ensures { result ≡ (nat_eq note.now.item item && nat_eq note.now.statement statement) }
{
    note.item as usize == item && note.statement as usize == statement
}

/// The note that is written before a statement of the procedure at this place.
fn written_before<'a>(
    program: &Program,
    outline: &'a Outline,
    place: usize,
    statement: usize,
) -> Option<&'a Note>
    requires numbered { IsNumbered program.now }
    requires place { place < length program.now.procs }
    ensures { option_copied result ≡ written_before program.now outline.now place statement }
{
    let item = proc_item(program, place);
    outline
        .notes
        .as_slice()
        .iter()
        .find(|note| is_before(note, item, statement))
}

/// A frame: a procedure by its place, the statement before which it stands, and the values of the procedure's parameters, outputs and
/// locals.
#[derive(Clone, Copy)]
pub(crate) struct Frame<'a> {
    pub procedure: usize,
    pub place: usize,
    pub locals: &'a [Value],
}

/// Whether a note is true in a store, of these locals.
fn is_true(program: &Program, proc: &Proc, store: &Store, locals: &[Value], note: &Note) -> bool
    ensures { result ≡ holds_in (plain_note_values program.now.globals proc.now store.now locals.now) note.now.expr }
{
    let globals = program.globals.as_slice();
    holds(
        &plain(globals, proc, store.values.as_slice(), locals),
        &note.expr,
    )
}

/// Whether the note holds before which a frame of this procedure stands, where one is written.
fn holds_before(
    program: &Program,
    outline: &Outline,
    store: &Store,
    proc: &Proc,
    frame: &Frame<'_>,
) -> bool
    requires numbered { IsNumbered program.now }
    requires place { frame.now.procedure < length program.now.procs }
    ensures { result ≡ holds_before program.now outline.now store.now (framed frame.now) proc.now }
{
    match written_before(program, outline, frame.procedure, frame.place) {
        Some(note) => is_true(program, proc, store, frame.locals, note),
        None => true,
    }
}

/// Whether the note holds before which a frame stands, where one is written.
pub(crate) fn note_holds(
    program: &Program,
    outline: &Outline,
    store: &Store,
    frame: &Frame<'_>,
) -> bool
    requires numbered { IsNumbered program.now }
    ensures { result ≡ note_holds program.now outline.now store.now (framed frame.now) }
{
    match program.procs.as_slice().get(frame.procedure) {
        Some(proc) => holds_before(program, outline, store, proc, frame),
        None => true,
    }
}

/// The frame as it is lent.
pub(crate) fn frame_of(frame: &Activation) -> Frame<'_>
    ensures { framed result ≡ frame.now }
{
    Frame {
        procedure: frame.procedure,
        place: frame.place,
        locals: frame.locals.as_slice(),
    }
}
