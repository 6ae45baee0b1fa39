// The notes of an outline.
ghost use Rattle.std.specs.Prelude.{◌≡◌, ◌+◌, ◌≤◌, ◌<◌, ◌&&◌, nat_eq, Some, length, slice_get, option_copied, IfOk, OnOk};
ghost use Rattle.civl_tree.specs.Numbered.{IsNumbered};
ghost use Rattle.civl_tree.specs.Numbering.{proc_item};
ghost use Rattle.civl_tree.specs.declared.expr.Sort.TheVariants.{Bool as Truth};
ghost use Rattle.civl_meaning.specs.Config.{frame_sorts};
ghost use Rattle.civl_layers.specs.Layered.{IsLayered};
ghost use Rattle.civl_terms.specs.Graphs.{sort_at};
ghost use Rattle.civl_terms.specs.Building.{Grows};
ghost use Rattle.civl_terms.specs.Weights.{graph_weight};
ghost use Rattle.civl_actions.specs.Scopes.{AreOf};
ghost use Rattle.civl_states.specs.Stores.{AreGlobals};
ghost use Rattle.civl_goals.specs.Outlines.{written_before};
ghost use Rattle.civl_goals.specs.Weights.{note_before_weight};
ghost use Rattle.civl_goal_terms.specs.inner.Outlined.{IsOutlined};
ghost use Rattle.civl_goal_terms.specs.inner.Told.{TellsNote};

use civl_bits::Value;
use civl_moves::note_term;
use civl_outlines::{Note, Outline};
use civl_terms::{Id, Memory, Terms};
use civl_tree::{List, Proc, Program};
use std::alloc::Global as Alloc;

/// The number of the procedure with this number, as an item.
fn proc_item(program: &Program, number: u32) -> u32
    requires numbered { IsNumbered program.now }
    requires number { number < length program.now.procs }
    ensures { result ≡ proc_item program.now number }
{
    let before = program.globals.len() + 1 + program.invariants.len() + program.actions.len();
    before as u32 + number
}

/// Whether a note is written before the statement with this number of this item.
fn is_before(note: &Note, item: u32, statement: u32) -> bool
    ensures { result ≡ (nat_eq note.now.item item && nat_eq note.now.statement statement) }
{
    note.item == item && note.statement == statement
}

/// The note that is written before a statement of this procedure.
fn written_before<'a>(
    program: &Program,
    outline: &'a Outline,
    proc: u32,
    statement: u32,
) -> Option<&'a Note>
    requires numbered { IsNumbered program.now }
    requires proc { proc < length program.now.procs }
    ensures { option_copied result ≡ written_before program.now outline.now proc statement }
{
    let item = proc_item(program, proc);
    outline
        .notes
        .as_slice()
        .iter()
        .find(|note| is_before(note, item, statement))
}

/// Whether the note before a statement of this procedure is true, at terms for the globals and for its frame. Where none is written,
/// it is.
pub(crate) fn note_at(
    alloc: Alloc,
    terms: &mut Terms,
    program: &Program,
    outline: &Outline,
    number: u32,
    proc: &Proc,
    statement: u32,
    globals: &List<Id>,
    locals: &List<Id>,
) -> Result<Id, Memory>
    requires layered { IsLayered program.now }
    requires outlined { IsOutlined program.now outline.now }
    requires proc { slice_get program.now.procs number ≡ Some proc.now }
    requires globals { AreGlobals terms.old program.now globals.now }
    requires locals { AreOf terms.old locals.now (frame_sorts proc.now) }
    ensures tells { IfOk result (λ id. TellsNote terms.old terms.new program.now outline.now number proc.now statement globals.now locals.now id) }
    ensures sorted { IfOk result (λ id. sort_at terms.new id ≡ Some Truth) }
    ensures weighs { OnOk result (graph_weight terms.new ≤ graph_weight terms.old + note_before_weight program.now outline.now number statement) }
    ensures grows { Grows terms.old terms.new }
{
    match written_before(program, outline, number, statement) {
        Some(note) => {
            let globals = globals.as_slice();
            let locals = locals.as_slice();
            let id = note_term(alloc, terms, program, proc, globals, locals, &note.expr)?;
            Ok(id)
        }
        None => {
            let id = terms.constant(Value::Bool(true))?;
            Ok(id)
        }
    }
}
