// Calls of actions at terms.
ghost use Rattle.std.specs.Prelude.{◌≡◌, ◌≤◌, ◌+◌, ◌<◌, length, map, All, slice_get, IfOk, OnOk, IfSome, Some};
ghost use Rattle.civl_tree.specs.declared.expr.Sort.TheVariants.{Bool as Truth};
ghost use Rattle.civl_tree.specs.rules.Names.{global_names, names_in_proc, targets_of};
ghost use Rattle.civl_tree.specs.rules.Rules.{Keeps};
ghost use Rattle.civl_tree.specs.rules.Scopes.{body_scope};
ghost use Rattle.civl_tree.specs.rules.Typing.{typing_rules};
ghost use Rattle.civl_firing.specs.values.ActionWeights.{action_weight};
ghost use Rattle.civl_meaning.specs.Config.{frame_sorts};
ghost use Rattle.civl_terms.specs.Building.{Grows};
ghost use Rattle.civl_terms.specs.Graphs.{sort_at};
ghost use Rattle.civl_terms.specs.Weights.{graph_weight};
ghost use Rattle.civl_actions.specs.Actions.{LeavesOthers, values_at};
ghost use Rattle.civl_actions.specs.Scopes.{AreOf, IsTyped};
ghost use Rattle.civl_states.specs.Notes.{IsProcIn};
ghost use Rattle.civl_moves.specs.sweeps.Sweeps.{with_action};
ghost use Rattle.civl_conditions.specs.Weights.{body_weight, weights_of};
ghost use Rattle.civl_moves.specs.Calls.{AreBodyTerms, HasRun, ResultsSuit, with_out_of, with_outs_of};
ghost use Rattle.civl_moves.specs.States.{CanSweep, Moves, body_of};

use crate::expressions::body_term;
use crate::plain::{frame_place, gate, put};
use crate::sweep::Sweep;
use civl_actions::instance;
use civl_states::formula_parts::both;
use civl_terms::{Id, Memory, Terms};
use civl_tree::{Expr, List, Name, Proc, Program};
use std::alloc::Global as Alloc;

/// The terms of the arguments of a call, at these terms for the frame. The graph's weight rises by at most theirs.
///
/// # Errors
///
/// For want of memory; the nodes before stay.
pub fn body_terms(
    alloc: Alloc,
    terms: &mut Terms,
    program: &Program,
    proc: &Proc,
    locals: &[Id],
    exprs: &[Expr],
) -> Result<List<Id>, Memory>
    requires rules { Keeps typing_rules program.now }
    requires proc { IsProcIn program.now proc.now }
    requires typed { All (IsTyped (body_scope program.now proc.now)) exprs.now }
    requires locals { AreOf terms.old locals.now (frame_sorts proc.now) }
    ensures terms { IfOk result (λ ids. AreBodyTerms terms.old terms.new program.now proc.now locals.now exprs.now ids) }
    ensures weighs { OnOk result (graph_weight terms.new ≤ graph_weight terms.old + weights_of (body_weight program.now proc.now) exprs.now) }
    ensures grows { Grows terms.old terms.new }
{
    let mut ids = Vec::new(alloc);
    for expr in exprs {
        let id = body_term(alloc, terms, program, proc, locals, expr)?;
        ids.push(id)?;
    }
    Ok(List::from_vec(ids))
}

/// What an action makes of a path: whether it is still here and still safe, and the globals and the outputs then.
#[derive(Drop)]
pub struct Ran {
    pub live: Id,
    pub safe: Id,
    pub globals: List<Id>,
    pub outs: List<Id>,
}

/// The terms of an action where the path is. The graph's weight rises by at most the action's and 4.
fn run_action(
    alloc: Alloc,
    terms: &mut Terms,
    program: &Program,
    action: u32,
    sweep: &Sweep,
    inputs: &List<Id>,
    choices: &List<Id>,
) -> Result<Ran, Memory>
    requires rules { Keeps typing_rules program.now }
    requires action { action < length program.now.actions }
    requires globals { AreOf terms.old sweep.now.globals (map (λ g. g.sort) program.now.globals) }
    requires inputs { IfSome (slice_get program.now.actions action) (λ a. AreOf terms.old inputs.now (map (λ p. p.sort) a.params)) }
    requires choices { IfSome (slice_get program.now.actions action) (λ a. AreOf terms.old choices.now (map (λ c. c.sort) a.choices)) }
    requires live { sort_at terms.old sweep.now.live ≡ Some Truth }
    requires safe { sort_at terms.old sweep.now.safe ≡ Some Truth }
    ensures ran { IfOk result (λ ran. IfSome (slice_get program.now.actions action) (λ a. HasRun terms.old terms.new program.now a sweep.now.globals inputs.now choices.now sweep.now.live sweep.now.safe ran)) }
    ensures others { IfOk result (λ ran. IfSome (slice_get program.now.actions action) (λ a. LeavesOthers (global_names program.now.globals) (targets_of a) sweep.now.globals ran.globals)) }
    ensures weighs { OnOk result (IfSome (slice_get program.now.actions action) (λ a. graph_weight terms.new ≤ graph_weight terms.old + action_weight program.now a + 4)) }
    ensures grows { Grows terms.old terms.new }
{
    let made = instance(
        alloc,
        terms,
        program,
        action,
        &sweep.globals,
        inputs,
        choices,
    )?;
    let gated = gate(terms, sweep.live, sweep.safe, made.gate)?;
    let live = both(terms, gated.live, made.guard)?;
    Ok(Ran {
        live,
        safe: gated.safe,
        globals: made.globals,
        outs: made.outs,
    })
}

/// Puts the term of the output at this place under the name of a result, if there is one.
fn take_out(alloc: Alloc, locals: &mut List<Id>, proc: &Proc, name: &Name, outs: &[Id], at: usize)
    ensures { locals.new ≡ with_out_of (names_in_proc proc.now) locals.old name.now (slice_get outs.now at) }
{
    match outs.get(at) {
        Some(out) => {
            put(alloc, locals, frame_place(proc, name), *out);
        }
        None => {}
    }
}

/// Puts the terms of outputs under the names of results.
fn take_outs(alloc: Alloc, locals: &mut List<Id>, proc: &Proc, results: &[Name], outs: &[Id])
    ensures { locals.new ≡ with_outs_of (names_in_proc proc.now) locals.old results.now outs.now }
{
    for (at, result) in results.iter().enumerate() {
        take_out(alloc, locals, proc, result, outs, at);
    }
}

/// A call of an action, at these terms for its parameters and its choices. The graph's weight rises by at most the action's and 4.
/// Globals that the action doesn't update keep their terms, and so do names that are no results.
///
/// # Errors
///
/// For want of memory; the nodes before stay.
pub fn pass_action(
    alloc: Alloc,
    terms: &mut Terms,
    program: &Program,
    proc: &Proc,
    sweep: &mut Sweep,
    action: u32,
    inputs: &List<Id>,
    choices: &List<Id>,
    results: &[Name],
) -> Result<(), Memory>
    requires rules { Keeps typing_rules program.now }
    requires action { action < length program.now.actions }
    requires can { CanSweep terms.old program.now proc.now sweep.old }
    requires inputs { IfSome (slice_get program.now.actions action) (λ a. AreOf terms.old inputs.now (map (λ p. p.sort) a.params)) }
    requires choices { IfSome (slice_get program.now.actions action) (λ a. AreOf terms.old choices.now (map (λ c. c.sort) a.choices)) }
    requires results { IfSome (slice_get program.now.actions action) (λ a. ResultsSuit proc.now results.now (map (λ p. p.sort) a.outs)) }
    ensures moves { OnOk result (IfSome (slice_get program.now.actions action) (λ a. Moves terms.old terms.new program.now proc.now sweep.old sweep.new (λ env. with_action (body_of program.now proc.now) results.now a (values_at env terms.old inputs.now) (values_at env terms.old choices.now)))) }
    ensures globals { OnOk result (IfSome (slice_get program.now.actions action) (λ a. LeavesOthers (global_names program.now.globals) (targets_of a) sweep.old.globals sweep.new.globals)) }
    ensures locals { OnOk result (LeavesOthers (names_in_proc proc.now) results.now sweep.old.locals sweep.new.locals) }
    ensures rest { OnOk result (sweep.new ≡ record sweep.old { live = sweep.new.live; safe = sweep.new.safe; globals = sweep.new.globals; locals = sweep.new.locals }) }
    ensures weighs { OnOk result (IfSome (slice_get program.now.actions action) (λ a. graph_weight terms.new ≤ graph_weight terms.old + action_weight program.now a + 4)) }
    ensures grows { Grows terms.old terms.new }
{
    let ran = run_action(alloc, terms, program, action, sweep, inputs, choices)?;
    let _count = terms.len();
    take_outs(alloc, &mut sweep.locals, proc, results, ran.outs.as_slice());
    sweep.live = ran.live;
    sweep.safe = ran.safe;
    sweep.globals = ran.globals;
    Ok(())
}
