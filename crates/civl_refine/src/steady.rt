// Notes where old means the present, and notes that say nothing of `done` and of old values.
ghost use Rattle.std.specs.Prelude.{◌≡◌, ◌+◌, ◌≤◌, length, take, drop, Some, IfOk, OnOk};
ghost use Rattle.civl_tree.specs.declared.expr.Sort.TheVariants.{Bool as Truth};
ghost use Rattle.civl_tree.specs.rules.Rules.{Keeps};
ghost use Rattle.civl_tree.specs.rules.Sorts.{sort_of};
ghost use Rattle.civl_tree.specs.rules.Scopes.{note_scope};
ghost use Rattle.civl_tree.specs.rules.Typing.{typing_rules};
ghost use Rattle.civl_meaning.specs.Config.{frame_sorts};
ghost use Rattle.civl_terms.specs.Graphs.{sort_at};
ghost use Rattle.civl_terms.specs.Building.{Grows};
ghost use Rattle.civl_terms.specs.Weights.{graph_weight};
ghost use Rattle.civl_actions.specs.Scopes.{AreOf, IsTyped};
ghost use Rattle.civl_conditions.specs.Weights.{note_weight};
ghost use Rattle.civl_states.specs.Stores.{AreGlobals};
ghost use Rattle.civl_states.specs.Notes.{IsProcIn};
ghost use Rattle.civl_refine.specs.Judging.{IsSteady, IsPlainNote};

use civl_bits::Value;
use civl_states::{View, note};
use civl_terms::{Id, Memory, Terms};
use civl_tree::{Expr, List, Proc, Program};
use std::alloc::Global as Alloc;

/// The terms of the outputs among those of a frame.
pub(crate) fn out_ids(alloc: Alloc, proc: &Proc, locals: &List<Id>) -> Result<List<Id>, Memory>
    requires { length proc.now.params + length proc.now.outs ≤ length locals.now }
    ensures { IfOk result (λ ids. ids ≡ take (length proc.now.outs) (drop (length proc.now.params) locals.now)) }
{
    let from = proc.params.len();
    let behind = &locals.as_slice()[from..];
    let ids = Vec::from_slice(alloc, &behind[..proc.outs.len()])?;
    Ok(List::from_vec(ids))
}

/// The term of a note of this procedure where old means the present, as at a block's beginning and behind its end. The graph's
/// weight rises by at most the note's.
///
/// The note has a sort there.
///
/// # Errors
///
/// For want of memory; the nodes before stay.
pub fn steady_note(
    alloc: Alloc,
    terms: &mut Terms,
    program: &Program,
    proc: &Proc,
    expr: &Expr,
    globals: &List<Id>,
    locals: &List<Id>,
    done: Id,
) -> Result<Id, Memory>
    requires rules { Keeps typing_rules program.now }
    requires proc { IsProcIn program.now proc.now }
    requires typed { IsTyped (note_scope program.now proc.now) expr.now }
    requires globals { AreGlobals terms.old program.now globals.now }
    requires locals { AreOf terms.old locals.now (frame_sorts proc.now) }
    requires done { sort_at terms.old done ≡ Some Truth }
    ensures note { IfOk result (λ id. IsSteady terms.old terms.new program.now proc.now globals.now locals.now done expr.now id) }
    ensures sorted { IfOk result (λ id. sort_at terms.new id ≡ sort_of (note_scope program.now proc.now) expr.now) }
    ensures weighs { OnOk result (graph_weight terms.new ≤ graph_weight terms.old + note_weight program.now proc.now expr.now) }
    ensures grows { Grows terms.old terms.new }
{
    let outs = out_ids(alloc, proc, locals)?;
    let view = View {
        globals: globals.as_slice(),
        locals: locals.as_slice(),
        done,
        old_globals: globals.as_slice(),
        old_outs: outs.as_slice(),
        old_done: done,
    };
    let id = note(alloc, terms, program, proc, expr, &view)?;
    Ok(id)
}

/// The term of a rank, or of a value behind `with`, of this procedure. The graph's weight rises by at most the expression's.
pub(crate) fn plain_note(
    alloc: Alloc,
    terms: &mut Terms,
    program: &Program,
    proc: &Proc,
    expr: &Expr,
    globals: &List<Id>,
    locals: &List<Id>,
) -> Result<Id, Memory>
    requires rules { Keeps typing_rules program.now }
    requires proc { IsProcIn program.now proc.now }
    requires typed { IsTyped (note_scope program.now proc.now) expr.now }
    requires globals { AreGlobals terms.old program.now globals.now }
    requires locals { AreOf terms.old locals.now (frame_sorts proc.now) }
    ensures note { IfOk result (λ id. IsPlainNote terms.old terms.new program.now proc.now globals.now locals.now expr.now id) }
    ensures sorted { IfOk result (λ id. sort_at terms.new id ≡ sort_of (note_scope program.now proc.now) expr.now) }
    ensures weighs { OnOk result (graph_weight terms.new ≤ graph_weight terms.old + note_weight program.now proc.now expr.now) }
    ensures grows { Grows terms.old terms.new }
{
    let no = terms.constant(Value::Bool(false))?;
    let id = steady_note(alloc, terms, program, proc, expr, globals, locals, no)?;
    Ok(id)
}
