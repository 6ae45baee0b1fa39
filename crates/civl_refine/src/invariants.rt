// The invariants of a step, and that of a cut.
ghost use Rattle.std.specs.Prelude.{◌≡◌, ◌+◌, ◌*◌, ◌≤◌, ◌&&◌, Bool, Some, IfOk, OnOk, IfSome, option_copied, map, if◌then◌else◌, nat_eq};
ghost use Rattle.civl_tree.specs.declared.expr.Sort.TheVariants.{Bool as Truth};
ghost use Rattle.civl_tree.specs.declared.expr.Expr.{Expr};
ghost use Rattle.civl_tree.specs.Numbering.{statements_of};
ghost use Rattle.civl_tree.specs.declared.stmt.Stmt.{out-Stmt};
ghost use Rattle.civl_tree.specs.rules.Rules.{Keeps};
ghost use Rattle.civl_tree.specs.rules.Sorts.{sort_of};
ghost use Rattle.civl_tree.specs.rules.Scopes.{global_scope, note_scope};
ghost use Rattle.civl_tree.specs.rules.Typing.{typing_rules};
ghost use Rattle.civl_firing.specs.declared.store.Store.{Store};
ghost use Rattle.civl_terms.specs.Graphs.{sort_at};
ghost use Rattle.civl_terms.specs.Building.{Grows};
ghost use Rattle.civl_terms.specs.Weights.{graph_weight};
ghost use Rattle.civl_actions.specs.Scopes.{IsTyped};
ghost use Rattle.civl_conditions.specs.Invariants.{invariants_hold};
ghost use Rattle.civl_conditions.specs.Steps.{step_invariants};
ghost use Rattle.civl_conditions.specs.Assumed.{layer_invariant, cut_invariant, note_holds};
ghost use Rattle.civl_conditions.specs.Weights.{global_weight, note_weight, weights_of, maybe_weight};
ghost use Rattle.civl_states.specs.formula_parts.Said.{Env, IsTest};
ghost use Rattle.civl_states.specs.Stores.{AreGlobals, AreStore};
ghost use Rattle.civl_states.specs.Notes.{Seen, seen_values, CanSee, AreSeen, IsProcIn};
ghost use Rattle.civl_refine.specs.Assuming.{holds_at};

use civl_layers::{Cut, CutKind};
use civl_states::formula_parts::both;
use civl_states::{View, global_note, note};
use civl_terms::{Id, Memory, Terms};
use civl_tree::{Expr, Invariant, List, Proc, Program, Stmt};
use std::alloc::Global as Alloc;

/// Whether a test is true, and an invariant holds if it is one of the step.
fn with_invariant(
    terms: &mut Terms,
    program: &Program,
    step: u32,
    invariant: &Invariant,
    globals: &List<Id>,
    test: Id,
) -> Result<Id, Memory>
    requires typed { IsTyped (global_scope program.now) invariant.now.expr }
    requires truth { sort_of (global_scope program.now) invariant.now.expr ≡ Some Truth }
    requires globals { AreGlobals terms.old program.now globals.now }
    requires test { sort_at terms.old test ≡ Some Truth }
    ensures test { IfOk result (λ id. (f : Env → Bool) (g : Env → Store) → IsTest terms.old test f → AreStore terms.old program.now globals.now g → IsTest terms.new id (λ env. f env && holds_at program.now step (g env) invariant.now)) }
    ensures sorted { IfOk result (λ id. sort_at terms.new id ≡ Some Truth) }
    ensures grows { Grows terms.old terms.new }
    ensures weighs { OnOk result (graph_weight terms.new ≤ graph_weight terms.old + (if nat_eq invariant.now.step step then global_weight program.now invariant.now.expr + 1 else 0)) }
{
    if invariant.step == step {
        let holds = global_note(terms, program, &invariant.expr, globals.as_slice())?;
        let id = both(terms, test, holds)?;
        return Ok(id);
    }
    Ok(test)
}

/// Whether a test is true, and all invariants of a step hold at these globals.
pub(crate) fn with_invariants(
    terms: &mut Terms,
    program: &Program,
    step: u32,
    globals: &List<Id>,
    test: Id,
) -> Result<Id, Memory>
    requires rules { Keeps typing_rules program.now }
    requires globals { AreGlobals terms.old program.now globals.now }
    requires test { sort_at terms.old test ≡ Some Truth }
    ensures test { IfOk result (λ id. (f : Env → Bool) (g : Env → Store) → IsTest terms.old test f → AreStore terms.old program.now globals.now g → IsTest terms.new id (λ env. f env && invariants_hold program.now step (g env))) }
    ensures sorted { IfOk result (λ id. sort_at terms.new id ≡ Some Truth) }
    ensures grows { Grows terms.old terms.new }
    ensures weighs { OnOk result (graph_weight terms.new ≤ graph_weight terms.old + 2 * weights_of (global_weight program.now) (step_invariants program.now step)) }
{
    let mut id = test;
    for invariant in program.invariants.as_slice() {
        id = with_invariant(terms, program, step, invariant, globals, id)?;
    }
    Ok(id)
}

/// The invariant of a statement that is a cut.
fn stmt_invariant(stmt: &Stmt) -> Option<&Expr>
    ensures { option_copied result ≡ layer_invariant (out-Stmt stmt.now) }
{
    match stmt {
        Stmt::YieldLoop(_, invariant, _) => Some(invariant),
        Stmt::RankLoop(_, _, invariant, _) => Some(invariant),
        Stmt::Yield(invariant) => Some(invariant),
        Stmt::Assign(_, _) => None,
        Stmt::Assert(_) => None,
        Stmt::If(_, _, _) => None,
        Stmt::While(_, _) => None,
        Stmt::Call(_, _, _) => None,
        Stmt::Commit => None,
        Stmt::Intro(_, _) => None,
        Stmt::Spawn(_, _) => None,
    }
}

/// The invariant of a cut, where it has one. These are all statements of the procedure.
pub fn invariant_of<'a>(proc: &Proc, flat: &[&'a Stmt], cut: Cut) -> Option<&'a Expr>
    requires { map (λ s. s.now) flat.now ≡ statements_of proc.now.body }
    ensures { option_copied result ≡ cut_invariant proc.now cut }
{
    match cut.kind {
        CutKind::Entry => None,
        CutKind::Yield | CutKind::YieldLoop | CutKind::RankLoop => {
            match flat.get(cut.statement as usize) {
                Some(stmt) => stmt_invariant(stmt),
                None => None,
            }
        }
    }
}

/// Whether a test is true, and this note holds, where there is one.
pub(crate) fn with_note(
    alloc: Alloc,
    terms: &mut Terms,
    program: &Program,
    proc: &Proc,
    expr: Option<&Expr>,
    view: &View<'_>,
    test: Id,
) -> Result<Id, Memory>
    requires rules { Keeps typing_rules program.now }
    requires proc { IsProcIn program.now proc.now }
    requires typed { IfSome (option_copied expr) (IsTyped (note_scope program.now proc.now)) }
    requires truth { IfSome (option_copied expr) (λ e. sort_of (note_scope program.now proc.now) e ≡ Some Truth) }
    requires view { CanSee terms.old program.now proc.now view.now }
    requires test { sort_at terms.old test ≡ Some Truth }
    ensures test { IfOk result (λ id. (f : Env → Bool) (s : Env → Seen) → IsTest terms.old test f → AreSeen terms.old program.now proc.now view.now s → IsTest terms.new id (λ env. f env && note_holds (seen_values program.now proc.now (s env)) (option_copied expr.entry))) }
    ensures sorted { IfOk result (λ id. sort_at terms.new id ≡ Some Truth) }
    ensures grows { Grows terms.old terms.new }
    ensures weighs { OnOk result (graph_weight terms.new ≤ graph_weight terms.old + maybe_weight (λ e. note_weight program.now proc.now e + 1) (option_copied expr.entry)) }
{
    match expr {
        Some(expr) => {
            let holds = note(alloc, terms, program, proc, expr, view)?;
            let id = both(terms, test, holds)?;
            Ok(id)
        }
        None => Ok(test),
    }
}
