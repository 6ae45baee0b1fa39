// The violations of the conditions on initial stores, and of those that blocks and actions keep invariants.
ghost use Rattle.std.specs.Prelude.{◌≡◌, ◌+◌, ◌*◌, ◌≤◌, ◌<◌, All, IsTrue, IfOk, OnOk, Some, slice_get, length, map, if◌then◌else◌};
ghost use Rattle.civl_tree.specs.rules.Rules.{Keeps};
ghost use Rattle.civl_firing.specs.values.Values.{is_sort};
ghost use Rattle.civl_layers.specs.Cuts.{proc_cuts};
ghost use Rattle.civl_layers.specs.Layered.{IsLayered};
ghost use Rattle.civl_bodies.specs.Bodies.{AreBodies, IsBody};
ghost use Rattle.civl_linear.specs.Cuts.{all_held};
ghost use Rattle.civl_linear.specs.LinearRules.{linear_rules};
ghost use Rattle.civl_terms.specs.Building.{Lengthens};
ghost use Rattle.civl_terms.specs.Weights.{graph_weight};
ghost use Rattle.civl_conditions.specs.declared.condition.Condition.TheVariants.{Block, Act};
ghost use Rattle.civl_conditions.specs.paths.Ends.{ends_from, is_rank_loop};
ghost use Rattle.civl_conditions.specs.Targets.{Other};
ghost use Rattle.civl_conditions.specs.Values.{begun};
ghost use Rattle.civl_conditions.specs.Variables.{path_variables};
ghost use Rattle.civl_conditions.specs.Weights.{base_weight, bits_of_variables, passed_weight, summed, weight};
ghost use Rattle.civl_states.specs.formula_parts.Said.{Env, IsTest};
ghost use Rattle.civl_states.specs.formula_parts.Given.{given, AreVariablesOf};
ghost use Rattle.civl_states.specs.Groups.{StandFrom};
ghost use Rattle.civl_states.specs.Formulas.{sorts_of, IsViolation};
ghost use Rattle.civl_refine.specs.Assuming.{IsStart};
ghost use Rattle.civl_refine.specs.Kinds.{HasCut};
ghost use Rattle.civl_refine.specs.Walked.{sorts_from};
ghost use Rattle.civl_refine.specs.inner.steadiness.Kept.{CanKeep, SaysOther, kept_weight};
ghost use Rattle.civl_refine.specs.inner.steadiness.Losing.{block_loses, end_weight, together_weight};
ghost use Rattle.civl_conditions.specs.declared.condition.Target.TheVariants as target;
ghost use Rattle.civl_refine.specs.steadiness.Kinds.{HasTarget, HasYield, IsOfSteadiness};

use crate::steadiness::acting::act_loses;
use crate::steadiness::blocks::block_loses;
use crate::steadiness::kept::Kept;
use crate::steadiness::makers::kept_of;
use crate::{Start, start_at, walk_from};
use civl_bodies::{Bodies, Body, body_at};
use civl_conditions::{Condition, Target};
use civl_layers::{Held, Layered, program};
use civl_movers::interfere::violation as interference;
use civl_states::{Existing, existing_count, invocation, store};
use civl_terms::{Id, Memory, Terms};
use civl_tree::Sort;
use std::alloc::Global as Alloc;

/// K11 for a yield: the action keeps its invariant.
fn act_fails(
    alloc: Alloc,
    terms: &mut Terms,
    src: &Layered,
    held: &Held,
    bodies: &Bodies<'_>,
    sorts: &[Sort],
    step: u32,
    action: u32,
    number: u32,
    place: u32,
) -> Result<Id, Memory>
    requires held { held.now.cuts ≡ all_held src.now }
    requires bodies { AreBodies src.now bodies.now }
    requires action { action < length src.now.actions }
    requires there { HasYield src.now number place }
    requires sorts { sorts.now ≡ sorts_of src.now (Act step action (target.Yield number place)) }
    requires variables { AreVariablesOf terms.old sorts.now }
    ensures says { IfOk result (λ id. IsViolation terms.new id src.now (Act step action (target.Yield number place))) }
    ensures weighs { OnOk result (graph_weight terms.new ≤ graph_weight terms.old + 4 * weight src.now (Act step action (target.Yield number place))) }
    ensures lengthens { Lengthens terms.old terms.new }
{
    let program = program(src);
    let kept = kept_of(
        alloc,
        terms,
        src,
        held,
        bodies,
        sorts,
        Target::Yield(number, place),
    )?;
    let globals = store(alloc, terms, program, sorts, Existing::Near(step), 0)?;
    let first = existing_count(program, Existing::Near(step)) as u32;
    let x = invocation(alloc, terms, program, sorts, action, first)?;
    let id = act_loses(alloc, terms, program, step, &globals, &x, &kept)?;
    Ok(id)
}

/// K10 from a cut: a block from there loses the target.
fn block_from(
    alloc: Alloc,
    terms: &mut Terms,
    sorts: &[Sort],
    start: &Start<'_>,
    kept: &Kept<'_>,
    body: &Body<'_>,
) -> Result<Id, Memory>
    requires layered { IsLayered start.now.program.now }
    requires linear { Keeps linear_rules start.now.program.now }
    requires start { IsStart start.now }
    requires there { slice_get (proc_cuts start.now.proc.now) start.now.number ≡ Some start.now.cut }
    requires body { IsBody start.now.proc.now body.now }
    requires stand { StandFrom sorts.now 0 (sorts_from start.now) }
    requires limits { All (λ s. IsTrue (is_sort s)) sorts.now }
    requires variables { AreVariablesOf terms.old sorts.now }
    requires kept { CanKeep terms.old start.now.program.now kept.now }
    ensures test { IfOk result (λ id. (o : Env → Other) → SaysOther terms.old kept.now o → IsTest terms.new id (λ env. block_loses start.now kept.now (begun start.now.program.now start.now.step start.now.proc.now start.now.cut (given env 0 (length sorts.now))) (o env))) }
    ensures variables { IfOk result (λ id. AreVariablesOf terms.new sorts.now) }
    ensures lengthens { Lengthens terms.old terms.new }
    ensures weighs { OnOk result (graph_weight terms.new ≤ graph_weight terms.old + bits_of_variables (path_variables start.now.program.now start.now.step start.now.proc.now start.now.cut) + 4 * passed_weight start.now.program.now start.now.step start.now.proc.now start.now.cut + 4 * base_weight start.now.program.now start.now.step start.now.proc.now start.now.number start.now.cut + kept_weight start.now.program.now start.now.step kept.now + 4 * summed (map (end_weight start.now (kept_weight start.now.program.now start.now.step kept.now)) (ends_from start.now.proc.now start.now.cut)) + together_weight start.now kept.now + (if is_rank_loop start.now.cut.kind then 2 else 0)) }
{
    let cuts = body.cuts.as_slice();
    let walked = walk_from(alloc, terms, sorts, start, body)?;
    let id = block_loses(alloc, terms, start, kept, &walked, cuts)?;
    Ok(id)
}

/// K10: the blocks from a cut keep the target.
fn block_fails(
    alloc: Alloc,
    terms: &mut Terms,
    src: &Layered,
    held: &Held,
    bodies: &Bodies<'_>,
    sorts: &[Sort],
    step: u32,
    number: u32,
    place: u32,
    target: Target,
) -> Result<Id, Memory>
    requires linear { Keeps linear_rules src.now }
    requires held { held.now.cuts ≡ all_held src.now }
    requires bodies { AreBodies src.now bodies.now }
    requires cut { HasCut src.now number place }
    requires there { HasTarget src.now target }
    requires sorts { sorts.now ≡ sorts_of src.now (Block step number place target) }
    requires variables { AreVariablesOf terms.old sorts.now }
    ensures says { IfOk result (λ id. IsViolation terms.new id src.now (Block step number place target)) }
    ensures weighs { OnOk result (graph_weight terms.new ≤ graph_weight terms.old + 4 * weight src.now (Block step number place target)) }
    ensures lengthens { Lengthens terms.old terms.new }
{
    let program = program(src);
    let proc = program.procs.get(number as usize);
    let body = body_at(bodies, src, number);
    let cut = body.cuts.as_slice()[place as usize];
    let start = start_at(
        program,
        held,
        step,
        number,
        proc,
        place,
        cut,
        body.statements.as_slice(),
    );
    let kept = kept_of(alloc, terms, src, held, bodies, sorts, target)?;
    let id = block_from(alloc, terms, sorts, &start, &kept, body)?;
    Ok(id)
}

/// The term of the formula that values violate a condition that initial stores meet an invariant, or that blocks or actions keep
/// one, K1, K10 and K11. The graph's variables are those of the condition, whose sorts are given in their order.
///
/// The condition is of this kind, and what it names is there; the program keeps the rules E40 to E43; `held` has what is held at each
/// cut, and `bodies` what belongs to each procedure. The graph's weight rises by at most four times the condition's.
///
/// # Errors
///
/// For want of memory, also for 2^32 variables or more; the nodes before stay.
pub fn violation(
    alloc: Alloc,
    terms: &mut Terms,
    src: &Layered,
    held: &Held,
    bodies: &Bodies<'_>,
    sorts: &[Sort],
    condition: &Condition,
) -> Result<Id, Memory>
    requires kind { IsOfSteadiness src.now condition.now }
    requires linear { Keeps linear_rules src.now }
    requires held { held.now.cuts ≡ all_held src.now }
    requires bodies { AreBodies src.now bodies.now }
    requires sorts { sorts.now ≡ sorts_of src.now condition.now }
    requires variables { AreVariablesOf terms.old (sorts_of src.now condition.now) }
    ensures says { IfOk result (λ id. IsViolation terms.new id src.now condition.now) }
    ensures weighs { OnOk result (graph_weight terms.new ≤ graph_weight terms.old + 4 * weight src.now condition.now) }
    ensures lengthens { Lengthens terms.old terms.new }
{
    match *condition {
        Condition::Start(_, _) => interference(alloc, terms, src, sorts, condition),
        Condition::Act(_, _, Target::Invariant(_)) => {
            interference(alloc, terms, src, sorts, condition)
        }
        Condition::Act(step, action, Target::Yield(number, place)) => {
            act_fails(
                alloc, terms, src, held, bodies, sorts, step, action, number, place,
            )
        }
        Condition::Block(step, number, place, target) => {
            block_fails(
                alloc, terms, src, held, bodies, sorts, step, number, place, target,
            )
        }
        _ => unreachable!(),
    }
}
