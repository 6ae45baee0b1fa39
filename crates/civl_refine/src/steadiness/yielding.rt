// Another thread at a yield.
ghost use Rattle.std.specs.Prelude.{◌≡◌, ◌≤◌, ◌+◌, IfOk, OnOk, Some};
ghost use Rattle.civl_tree.specs.declared.expr.Sort.TheVariants.{Bool as Truth};
ghost use Rattle.civl_tree.specs.rules.Rules.{Keeps};
ghost use Rattle.civl_tree.specs.rules.Typing.{typing_rules};
ghost use Rattle.civl_firing.specs.declared.store.Store.{Store};
ghost use Rattle.civl_terms.specs.Graphs.{sort_at};
ghost use Rattle.civl_terms.specs.Building.{Grows};
ghost use Rattle.civl_terms.specs.Weights.{graph_weight};
ghost use Rattle.civl_conditions.specs.Targets.{Other, yield_holds};
ghost use Rattle.civl_conditions.specs.Weights.{note_weight};
ghost use Rattle.civl_states.specs.formula_parts.Said.{Env, IsTest};
ghost use Rattle.civl_states.specs.Stores.{AreGlobals, AreStore};
ghost use Rattle.civl_refine.specs.inner.steadiness.Others.{IsYieldIn, AreFrame, SayFrame};

use crate::steady_note;
use civl_layers::Cut;
use civl_terms::{Id, Memory, Terms};
use civl_tree::{Expr, List, Proc, Program};
use std::alloc::Global as Alloc;

/// A yield of a procedure: its cut, its invariant, and the numbers of the locals that are held there.
#[derive(Clone, Copy)]
pub(crate) struct Yielding<'a> {
    pub proc: &'a Proc,
    pub cut: Cut,
    pub note: &'a Expr,
    pub held: &'a [u32],
}

/// A thread's frame, as terms: the parameters, outputs and locals, and `done`.
#[derive(Drop)]
pub(crate) struct Frame {
    pub locals: List<Id>,
    pub done: Id,
}

/// Whether the invariant of a yield holds for a frame there, at these globals.
pub(crate) fn yield_kept(
    alloc: Alloc,
    terms: &mut Terms,
    program: &Program,
    place: &Yielding<'_>,
    frame: &Frame,
    globals: &List<Id>,
) -> Result<Id, Memory>
    requires rules { Keeps typing_rules program.now }
    requires place { IsYieldIn program.now place.now }
    requires frame { AreFrame terms.old place.now.proc.now frame.now }
    requires globals { AreGlobals terms.old program.now globals.now }
    ensures tells { IfOk result (λ id. (o : Env → Other) (g : Env → Store) → SayFrame terms.old place.now.proc.now frame.now o → AreStore terms.old program.now globals.now g → IsTest terms.new id (λ env. yield_holds program.now place.now.proc.now place.now.cut (o env) (g env))) }
    ensures sorted { IfOk result (λ id. sort_at terms.new id ≡ Some Truth) }
    ensures grows { Grows terms.old terms.new }
    ensures weighs { OnOk result (graph_weight terms.new ≤ graph_weight terms.old + note_weight program.now place.now.proc.now place.now.note.now) }
{
    let id = steady_note(
        alloc,
        terms,
        program,
        place.proc,
        place.note,
        globals,
        &frame.locals,
        frame.done,
    )?;
    Ok(id)
}
