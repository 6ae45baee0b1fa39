// The target of a condition, with variables for another thread's frame.
ghost use Rattle.std.specs.Prelude.{◌≡◌, ◌+◌, ◌-◌, ◌≤◌, ◌<◌, ◌^◌, ℕ, true, All, IsTrue, Some, IfOk, OnOk, length, map, slice_get};
ghost use Rattle.civl_tree.specs.Numbering.{statements_of};
ghost use Rattle.civl_tree.specs.rules.Rules.{Keeps};
ghost use Rattle.civl_tree.specs.rules.Typing.{typing_rules};
ghost use Rattle.civl_firing.specs.values.Values.{is_sort};
ghost use Rattle.civl_layers.specs.Cuts.{proc_cuts};
ghost use Rattle.civl_bodies.specs.Bodies.{AreBodies};
ghost use Rattle.civl_linear.specs.Cuts.{all_held};
ghost use Rattle.civl_conditions.specs.paths.Ends.{is_yield_cut};
ghost use Rattle.civl_terms.specs.Building.{Lengthens};
ghost use Rattle.civl_terms.specs.Weights.{graph_weight};
ghost use Rattle.civl_conditions.specs.declared.condition.Target.TheVariants as target;
ghost use Rattle.civl_conditions.specs.Variables.{other_variables};
ghost use Rattle.civl_conditions.specs.Weights.{bits_of_variables};
ghost use Rattle.civl_states.specs.formula_parts.Given.{given, bits_of_sorts, AreVariablesOf};
ghost use Rattle.civl_states.specs.Groups.{StandFrom};
ghost use Rattle.civl_refine.specs.inner.steadiness.Others.{IsYieldIn, YieldsAt, other_sorts};
ghost use Rattle.civl_refine.specs.inner.steadiness.Kept.{IsTarget, CanKeep, SaysOther, other_at};
ghost use Rattle.civl_refine.specs.steadiness.Kinds.{HasTarget, HasYield};
ghost use Rattle.civl_refine.specs.inner.steadiness.Making.{EndWith, IsFrameFrom, others_from};

use crate::steadiness::kept::Kept;
use crate::steadiness::yielding::{Frame, Yielding};
use crate::{held_numbers, invariant_of};
use civl_bodies::{Bodies, body_at};
use civl_conditions::Target;
use civl_layers::{Cut, Held, Layered, program};
use civl_states::flag;
use civl_states::formula_parts::variables;
use civl_terms::{Memory, Terms};
use civl_tree::{Proc, Program, Sort, Stmt};
use std::alloc::Global as Alloc;

/// A frame of a procedure whose parameters, outputs, locals and `done` are variables, numbered from this number on.
fn frame_from(
    alloc: Alloc,
    terms: &mut Terms,
    sorts: &[Sort],
    proc: &Proc,
    first: u32,
) -> Result<Frame, Memory>
    requires stand { StandFrom sorts.now first (other_sorts proc.now) }
    requires small { length sorts.now < 2 ^ 32 }
    requires limits { All (λ s. IsTrue (is_sort s)) sorts.now }
    requires variables { AreVariablesOf terms.old sorts.now }
    ensures frame { IfOk result (IsFrameFrom terms.new proc.now first) }
    ensures variables { AreVariablesOf terms.new sorts.now }
    ensures lengthens { Lengthens terms.old terms.new }
    ensures weighs { OnOk result (graph_weight terms.new ≤ graph_weight terms.old + bits_of_sorts (other_sorts proc.now)) }
{
    let count = (proc.params.len() + (proc.outs.len() + proc.locals.len())) as u32;
    let locals = variables(alloc, terms, sorts, first, count)?;
    let done = flag(terms, sorts, first + count)?;
    Ok(Frame { locals, done })
}

/// A yield of a procedure. The procedure has this number in the program, and the cut has this place among the procedure's cuts; these
/// are all its statements, and `held` has what is held at each cut.
fn yield_at<'a>(
    program: &'a Program,
    held: &'a Held,
    number: u32,
    proc: &'a Proc,
    place: u32,
    cut: Cut,
    flat: &[&'a Stmt],
) -> Yielding<'a>
    requires rules { Keeps typing_rules program.now }
    requires held { held.now.cuts ≡ all_held program.now }
    requires proc { slice_get program.now.procs number ≡ Some proc.now }
    requires cut { slice_get (proc_cuts proc.now) place ≡ Some cut }
    requires yields { is_yield_cut cut.kind ≡ true }
    requires flat { map (λ s. s.now) flat.now ≡ statements_of proc.now.body }
    ensures is { IsYieldIn program.now result }
    ensures at { YieldsAt program.now number place result }
{
    match invariant_of(proc, flat, cut) {
        Some(note) => Yielding {
            proc,
            cut,
            note,
            held: held_numbers(held, number, place),
        },
        None => unreachable!(),
    }
}

/// The invariant of the yield with these numbers of a procedure and a cut, with a frame there whose values are the last variables.
fn yield_target<'a>(
    alloc: Alloc,
    terms: &mut Terms,
    src: &'a Layered,
    held: &'a Held,
    bodies: &'a Bodies<'a>,
    sorts: &[Sort],
    number: u32,
    place: u32,
) -> Result<Kept<'a>, Memory>
    requires held { held.now.cuts ≡ all_held src.now }
    requires bodies { AreBodies src.now bodies.now }
    requires there { HasYield src.now number place }
    requires end { EndWith sorts.now src.now (target.Yield number place) }
    requires limits { All (λ s. IsTrue (is_sort s)) sorts.now }
    requires small { length sorts.now < 2 ^ 32 }
    requires variables { AreVariablesOf terms.old sorts.now }
    ensures is { IfOk result (IsTarget src.now (target.Yield number place)) }
    ensures can { IfOk result (CanKeep terms.new src.now) }
    ensures says { IfOk result (λ kept. (n : ℕ) → length sorts.now ≤ n → SaysOther terms.new kept (λ env. other_at kept (given env 0 n) (others_from sorts.now src.now (target.Yield number place)))) }
    ensures variables { AreVariablesOf terms.new sorts.now }
    ensures lengthens { Lengthens terms.old terms.new }
    ensures weighs { OnOk result (graph_weight terms.new ≤ graph_weight terms.old + bits_of_variables (other_variables src.now (target.Yield number place))) }
{
    let program = program(src);
    let proc = program.procs.get(number as usize);
    let body = body_at(bodies, src, number);
    let cut = body.cuts.as_slice()[place as usize];
    let at = yield_at(
        program,
        held,
        number,
        proc,
        place,
        cut,
        body.statements.as_slice(),
    );
    let count = proc.params.len() + (proc.outs.len() + proc.locals.len()) + 1;
    let first = (sorts.len() - count) as u32;
    let frame = frame_from(alloc, terms, sorts, proc, first)?;
    Ok(Kept::Yield(at, frame))
}

/// The target of a condition whose last variables are those of the other thread's frame, where it is a yield. The sorts are those of
/// all its variables.
///
/// The graph's weight rises by at most the bits of the frame's variables.
///
/// # Errors
///
/// For want of memory, also for 2^32 variables or more; the nodes before stay.
pub(crate) fn kept_of<'a>(
    alloc: Alloc,
    terms: &mut Terms,
    src: &'a Layered,
    held: &'a Held,
    bodies: &'a Bodies<'a>,
    sorts: &[Sort],
    target: Target,
) -> Result<Kept<'a>, Memory>
    requires held { held.now.cuts ≡ all_held src.now }
    requires bodies { AreBodies src.now bodies.now }
    requires there { HasTarget src.now target }
    requires end { EndWith sorts.now src.now target }
    requires limits { All (λ s. IsTrue (is_sort s)) sorts.now }
    requires variables { AreVariablesOf terms.old sorts.now }
    ensures is { IfOk result (IsTarget src.now target) }
    ensures can { IfOk result (CanKeep terms.new src.now) }
    ensures says { IfOk result (λ kept. (n : ℕ) → length sorts.now ≤ n → SaysOther terms.new kept (λ env. other_at kept (given env 0 n) (others_from sorts.now src.now target))) }
    ensures small { IfOk result (λ kept. length sorts.now < 2 ^ 32) }
    ensures variables { AreVariablesOf terms.new sorts.now }
    ensures lengthens { Lengthens terms.old terms.new }
    ensures weighs { OnOk result (graph_weight terms.new ≤ graph_weight terms.old + bits_of_variables (other_variables src.now target)) }
{
    let _count = terms.len();
    if sorts.len() > u32::MAX as usize {
        return Err(Memory);
    }
    match target {
        Target::Invariant(place) => Ok(Kept::Invariant(place)),
        Target::Yield(number, place) => {
            let kept = yield_target(alloc, terms, src, held, bodies, sorts, number, place)?;
            Ok(kept)
        }
    }
}
