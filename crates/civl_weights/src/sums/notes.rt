// What is worked out of the cuts of each procedure, whatever the step.
ghost use Rattle.std.specs.Prelude.{◌≡◌, map, length, IfOk};
ghost use Rattle.civl_tree.specs.declared.stmt.Stmt.{out-Stmt};
ghost use Rattle.civl_tree.specs.Numbering.{statements_of};
ghost use Rattle.civl_types.specs.Views.{scope_of};
ghost use Rattle.civl_firing.specs.values.Weights.{weight_of};
ghost use Rattle.civl_linear.specs.Cuts.{held_of};
ghost use Rattle.civl_layers.specs.Cuts.{proc_cuts};
ghost use Rattle.civl_conditions.specs.Assumed.{layer_invariant, cut_invariant};
ghost use Rattle.civl_conditions.specs.Weights.{note_weight, maybe_weight};
ghost use Rattle.civl_weighing.specs.Weighing.{Weighs, AreWeights};
ghost use Rattle.civl_weights.specs.sums.Sums.{OfNotes, frame_bits};

use civl_layers::{Cut, CutKind};
use civl_tree::{List, Memory, Proc, Program, Stmt};
use civl_types::view::View;
use civl_weighing::bits::{locals_bits, params_bits};
use civl_weighing::exprs::weight_of;
use civl_weighing::weight::Weight;
use std::alloc::Global;

/// The weights of the cuts' invariants, how many items are held at each, and the bits of a frame.
#[derive(Drop)]
pub struct NoteSums {
    pub invariants: List<Weight>,
    pub items: List<Weight>,
    pub frame: Weight,
}

/// The weight of the invariant that a statement has as a cut.
fn said_weight(view: &View, stmt: &Stmt) -> Weight
    ensures { Weighs result (maybe_weight (weight_of (scope_of view.now)) (layer_invariant (out-Stmt stmt.now))) }
{
    match stmt {
        Stmt::YieldLoop(_, invariant, _) => weight_of(view, invariant),
        Stmt::RankLoop(_, _, invariant, _) => weight_of(view, invariant),
        Stmt::Yield(invariant) => weight_of(view, invariant),
        Stmt::Assign(_, _)
        | Stmt::Assert(_)
        | Stmt::If(_, _, _)
        | Stmt::While(_, _)
        | Stmt::Call(_, _, _)
        | Stmt::Commit
        | Stmt::Intro(_, _)
        | Stmt::Spawn(_, _) => Weight::of(0),
    }
}

/// The weight of the invariant of a cut, where it has one. These are all statements of the procedure.
pub(crate) fn invariant_weight(program: &Program, proc: &Proc, flat: &[&Stmt], cut: &Cut) -> Weight
    requires { map (λ s. s.now) flat.now ≡ statements_of proc.now.body }
    ensures { Weighs result (maybe_weight (note_weight program.now proc.now) (cut_invariant proc.now cut.now)) }
{
    match cut.kind {
        CutKind::Entry => Weight::of(0),
        CutKind::Yield | CutKind::YieldLoop | CutKind::RankLoop => {
            match flat.get(cut.statement as usize) {
                Some(stmt) => said_weight(&View::Note(program, proc), stmt),
                None => Weight::of(0),
            }
        }
    }
}

fn invariant_weights(
    alloc: Global,
    program: &Program,
    proc: &Proc,
    flat: &[&Stmt],
    cuts: &[Cut],
) -> Result<List<Weight>, Memory>
    requires { map (λ s. s.now) flat.now ≡ statements_of proc.now.body }
    ensures { IfOk result (λ weights. AreWeights weights (map (λ cut. maybe_weight (note_weight program.now proc.now) (cut_invariant proc.now cut)) cuts.now)) }
{
    let mut weights = List::new(alloc);
    for cut in cuts {
        weights.push(invariant_weight(program, proc, flat, cut))?;
    }
    Ok(weights)
}

/// How many there are in each of these lists.
fn lengths(alloc: Global, lists: &[List<u32>]) -> Result<List<Weight>, Memory>
    ensures { IfOk result (λ weights. AreWeights weights (map length lists.now)) }
{
    let mut weights = List::new(alloc);
    for list in lists {
        weights.push(Weight::of_count(list.len()))?;
    }
    Ok(weights)
}

/// The bits of the frame of another thread, which is in this procedure.
fn frame_bits(proc: &Proc) -> Weight
    ensures { Weighs result (frame_bits proc.now) }
{
    let outs = params_bits(proc.outs.as_slice());
    let locals = locals_bits(proc.locals.as_slice());
    params_bits(proc.params.as_slice()).plus(outs.plus(locals.plus(Weight::of(1))))
}

/// Of a procedure, which has these statements and cuts, and at these holds these locals.
pub(crate) fn note_sums(
    alloc: Global,
    program: &Program,
    proc: &Proc,
    flat: &[&Stmt],
    cuts: &List<Cut>,
    held: &List<List<u32>>,
) -> Result<NoteSums, Memory>
    requires statements { map (λ s. s.now) flat.now ≡ statements_of proc.now.body }
    requires cuts { cuts.now ≡ proc_cuts proc.now }
    requires held { held.now ≡ held_of program.now proc.now }
    ensures { IfOk result (OfNotes program.now proc.now) }
{
    let invariants = invariant_weights(alloc, program, proc, flat, cuts.as_slice())?;
    let items = lengths(alloc, held.as_slice())?;
    Ok(NoteSums {
        invariants,
        items,
        frame: frame_bits(proc),
    })
}
