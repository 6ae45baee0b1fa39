// What is worked out of the paths from each cut, at a step.
ghost use Rattle.std.specs.Prelude.{◌≡◌, ◌+◌, ◌<◌, ◌^◌, map, length, IfOk};
ghost use Rattle.std.specs.List.{AllZip};
ghost use Rattle.std.specs.Option.{option_map_or};
ghost use Rattle.civl_tree.specs.declared.stmt.Stmt.{out-Stmt};
ghost use Rattle.civl_tree.specs.Numbering.{statements_of, sizes_of};
ghost use Rattle.civl_tree.specs.rules.Scopes.{note_scope};
ghost use Rattle.civl_types.specs.Views.{scope_of};
ghost use Rattle.civl_firing.specs.values.Weights.{weight_of};
ghost use Rattle.civl_firing.specs.values.ActionWeights.{gate_weight, guard_weight, updates_weight};
ghost use Rattle.civl_layers.specs.Cuts.{proc_cuts};
ghost use Rattle.civl_conditions.specs.paths.Ends.{is_entry};
ghost use Rattle.civl_conditions.specs.Assumed.{layer_rank, refined_action, cut_invariant, cut_rank, with_of};
ghost use Rattle.civl_conditions.specs.Weights.{note_weight, maybe_weight, weights_of, linear_globals};
ghost use Rattle.civl_weighing.specs.Weighing.{Weighs};
ghost use Rattle.civl_weights.specs.inner.sums.Met.{AreMet};
ghost use Rattle.civl_weights.specs.sums.Sums.{OfAction, OfStep, OfNotes, OfCut, OfCuts};
ghost use Rattle.civl_weights.specs.inner.sums.Paths.{ArePathBits, rank_weight, OfBody};

use crate::sums::actions::{ActionSums, sums_refined};
use crate::sums::met::{MetSums, met_sums};
use crate::sums::notes::{NoteSums, invariant_weight};
use crate::sums::statements::{all_choices, stmt_weights};
use crate::sums::steps::StepSums;
use civl_conditions::paths::{is_entry, is_rank_loop};
use civl_layers::{Cut, CutKind};
use civl_tree::{Expr, List, Memory, Proc, Program, Refines, Stmt};
use civl_types::view::View;
use civl_weighing::bits::{locals_bits, one_where, params_bits};
use civl_weighing::exprs::{bits_in, weigh, weights_of};
use civl_weighing::lists::weight_at;
use civl_weighing::weight::{Weight, linear};
use std::alloc::Global;

/// At a step, of the paths from a cut: the bits of their variables, the weights of what is assumed and of what is passed, those
/// of each part at all ends together, how many ends are those of blocks, and how many linear items there are.
#[derive(Clone, Copy)]
pub struct CutSums {
    pub variables: Weight,
    pub base: Weight,
    pub passed: Weight,
    pub gate: Weight,
    pub invariant: Weight,
    pub stutter: Weight,
    pub perform: Weight,
    pub rank: Weight,
    pub stops: Weight,
    pub items: Weight,
}

/// The bits of a path's variables, where those of the globals and of the choices of calls are these.
fn path_bits(near: Weight, proc: &Proc, kind: CutKind, choices: Weight) -> Weight
    ensures { ArePathBits near proc.now kind choices result }
{
    let inside = !is_entry(kind);
    let again = is_rank_loop(kind);
    let outs = params_bits(proc.outs.as_slice());
    let inner = outs.plus(locals_bits(proc.locals.as_slice()));
    let flags = one_where(inside).plus(one_where(again).plus(choices));
    let own = inner.if_so(inside).plus(outs.if_so(again).plus(flags));
    near.plus(
        near.if_so(again)
            .plus(params_bits(proc.params.as_slice()).plus(own)),
    )
}

// ---- the refined action

fn refined_gate(program: &Program, actions: &[ActionSums], proc: &Proc) -> Weight
    requires { AllZip (OfAction program.now) program.now.actions actions.now }
    ensures { Weighs result (option_map_or (gate_weight program.now) (refined_action program.now proc.now) 0) }
{
    match sums_refined(program, actions, &proc.refines) {
        Some(sums) => sums.gate,
        None => Weight::of(0),
    }
}

/// The weight of its guard and its updates.
fn refined_effect(program: &Program, actions: &[ActionSums], proc: &Proc) -> Weight
    requires { AllZip (OfAction program.now) program.now.actions actions.now }
    ensures { Weighs result (option_map_or (λ a. guard_weight program.now a + updates_weight program.now a) (refined_action program.now proc.now) 0) }
{
    match sums_refined(program, actions, &proc.refines) {
        Some(sums) => sums.guard.plus(sums.updates),
        None => Weight::of(0),
    }
}

/// The weight of what stands for its choices.
fn with_weight(view: &View, refines: &Option<Refines>) -> Weight
    ensures { Weighs result (weights_of (weight_of (scope_of view.now)) (with_of refines.now)) }
{
    match refines {
        Some(refines) => weights_of(view, refines.with.as_slice()),
        None => Weight::of(0),
    }
}

// ---- ranks

fn rank_of(view: &View, rank: &Expr) -> Weight
    ensures { Weighs result (rank_weight (scope_of view.now) rank.now) }
{
    let found = weigh(view, rank);
    Weight::of(3)
        .times(found.weight)
        .plus(Weight::of(2).times(bits_in(found.sort)))
}

/// The weight of the rank that a statement has as a cut.
fn rank_said(view: &View, stmt: &Stmt) -> Weight
    ensures { Weighs result (option_map_or (rank_weight (scope_of view.now)) (layer_rank (out-Stmt stmt.now)) 0) }
{
    match stmt {
        Stmt::RankLoop(_, rank, _, _) => rank_of(view, rank),
        Stmt::Assign(_, _)
        | Stmt::Assert(_)
        | Stmt::If(_, _, _)
        | Stmt::While(_, _)
        | Stmt::YieldLoop(_, _, _)
        | Stmt::Call(_, _, _)
        | Stmt::Yield(_)
        | Stmt::Commit
        | Stmt::Intro(_, _)
        | Stmt::Spawn(_, _) => Weight::of(0),
    }
}

/// The weight of the rank of a cut. These are all statements of the procedure.
fn rank_at(view: &View, proc: &Proc, flat: &[&Stmt], cut: Cut) -> Weight
    requires { map (λ s. s.now) flat.now ≡ statements_of proc.now.body }
    ensures { Weighs result (option_map_or (rank_weight (scope_of view.now)) (cut_rank proc.now cut) 0) }
{
    match cut.kind {
        CutKind::Entry => Weight::of(0),
        CutKind::Yield | CutKind::YieldLoop | CutKind::RankLoop => {
            match flat.get(cut.statement as usize) {
                Some(stmt) => rank_said(view, stmt),
                None => Weight::of(0),
            }
        }
    }
}

// ---- a cut

/// What is worked out of a procedure, at a step: of the refined action, of the results, and of each statement.
#[derive(Drop)]
struct BodySums {
    gate: Weight,
    stutter: Weight,
    perform: Weight,
    weights: List<Weight>,
    choices: List<Weight>,
}

fn body_sums(
    alloc: Global,
    program: &Program,
    actions: &[ActionSums],
    step: &StepSums,
    proc: &Proc,
    flat: &[&Stmt],
) -> Result<BodySums, Memory>
    requires actions { AllZip (OfAction program.now) program.now.actions actions.now }
    requires step { OfStep program.now step.now }
    requires statements { map (λ s. s.now) flat.now ≡ statements_of proc.now.body }
    ensures { IfOk result (OfBody program.now step.now.step proc.now) }
{
    let below = step.step.saturating_sub(1);
    let note = View::Note(program, proc);
    let results = step.upper.plus(params_bits(proc.outs.as_slice()));
    let stutter = Weight::of(1).plus(results);
    let with = with_weight(&note, &proc.refines);
    Ok(BodySums {
        gate: refined_gate(program, actions, proc),
        stutter,
        perform: stutter
            .plus(with)
            .plus(refined_effect(program, actions, proc)),
        weights: stmt_weights(alloc, program, actions, below, proc, flat)?,
        choices: all_choices(alloc, program, actions, below, flat)?,
    })
}

/// The sums of the cut with this number, by what its paths meet and the weights of its invariant and its rank.
fn cut_sums(
    program: &Program,
    globals: Weight,
    step: &StepSums,
    proc: &Proc,
    body: &BodySums,
    notes: &NoteSums,
    number: u32,
    cut: Cut,
    met: MetSums,
    note: Weight,
    rank: Weight,
) -> CutSums
    requires globals { Weighs globals (linear_globals program.now) }
    requires step { OfStep program.now step.now }
    requires body { OfBody program.now step.now.step proc.now body.now }
    requires notes { OfNotes program.now proc.now notes.now }
    requires met { AreMet proc.now cut notes.now.invariants body.now.weights body.now.choices met }
    requires note { Weighs note (maybe_weight (note_weight program.now proc.now) (cut_invariant proc.now cut)) }
    requires rank { Weighs rank (option_map_or (rank_weight (note_scope program.now proc.now)) (cut_rank proc.now cut) 0) }
    ensures { OfCut program.now step.now.step proc.now number cut result }
{
    let one = Weight::of(1);
    let items = weight_at(notes.items.as_slice(), number).plus(globals);
    CutSums {
        variables: path_bits(step.near, proc, cut.kind, met.choices),
        base: step
            .together
            .plus(note)
            .plus(body.gate)
            .plus(linear(program, items)),
        passed: met.passed,
        gate: met.ends,
        invariant: met.ends.plus(met.invariants),
        stutter: met.ends.times(body.stutter),
        perform: met.ends.times(body.perform),
        rank: met.ends.times(one.plus(rank)),
        stops: met.stops,
        items,
    }
}

/// The sums of each cut of a procedure, at a step.
pub(crate) fn path_sums(
    alloc: Global,
    program: &Program,
    actions: &[ActionSums],
    globals: Weight,
    step: &StepSums,
    proc: &Proc,
    flat: &[&Stmt],
    cuts: &List<Cut>,
    notes: &NoteSums,
) -> Result<List<CutSums>, Memory>
    requires actions { AllZip (OfAction program.now) program.now.actions actions.now }
    requires globals { Weighs globals (linear_globals program.now) }
    requires step { OfStep program.now step.now }
    requires small { sizes_of proc.now.body < 2 ^ 32 }
    requires few { length cuts.now < 2 ^ 32 }
    requires cuts { cuts.now ≡ proc_cuts proc.now }
    requires statements { map (λ s. s.now) flat.now ≡ statements_of proc.now.body }
    requires notes { OfNotes program.now proc.now notes.now }
    ensures { IfOk result (OfCuts program.now step.now.step proc.now 0 (proc_cuts proc.now)) }
{
    let view = View::Note(program, proc);
    let body = body_sums(alloc, program, actions, step, proc, flat)?;
    let invariants = notes.invariants.as_slice();
    let weights = body.weights.as_slice();
    let choices = body.choices.as_slice();
    let items = cuts.as_slice();
    let mut sums = List::new(alloc);
    for (number, cut) in items.iter().enumerate() {
        let number = number as u32;
        let met = met_sums(alloc, proc, *cut, cuts, invariants, weights, choices)?;
        let note = invariant_weight(program, proc, flat, cut);
        let rank = rank_at(&view, proc, flat, *cut);
        sums.push(cut_sums(
            program, globals, step, proc, &body, notes, number, *cut, met, note, rank,
        ))?;
    }
    Ok(sums)
}
