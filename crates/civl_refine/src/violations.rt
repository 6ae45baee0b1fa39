// The violations of the conditions on paths, as terms over their variables.
ghost use Rattle.std.specs.Prelude.{◌≡◌, ◌+◌, ◌*◌, ◌≤◌, IfOk, OnOk, Some, slice_get};
ghost use Rattle.civl_tree.specs.rules.Rules.{Keeps};
ghost use Rattle.civl_layers.specs.Cuts.{proc_cuts};
ghost use Rattle.civl_layers.specs.Layered.{IsLayered};
ghost use Rattle.civl_bodies.specs.Bodies.{AreBodies, IsBody};
ghost use Rattle.civl_linear.specs.Cuts.{all_held};
ghost use Rattle.civl_linear.specs.LinearRules.{linear_rules};
ghost use Rattle.civl_terms.specs.Building.{Lengthens};
ghost use Rattle.civl_terms.specs.Weights.{graph_weight};
ghost use Rattle.civl_conditions.specs.declared.condition.Condition.TheVariants.{Path};
ghost use Rattle.civl_conditions.specs.Parts.{path_fails};
ghost use Rattle.civl_conditions.specs.Values.{begun};
ghost use Rattle.civl_conditions.specs.Variables.{path_variables};
ghost use Rattle.civl_conditions.specs.Weights.{bits_of_variables, path_weight, weight};
ghost use Rattle.civl_states.specs.formula_parts.Given.{AreVariablesOf};
ghost use Rattle.civl_states.specs.Formulas.{sorts_of, IsFormula, IsViolation};
ghost use Rattle.civl_refine.specs.Assuming.{IsStart};
ghost use Rattle.civl_refine.specs.Kinds.{HasCut, IsOfPaths};
ghost use Rattle.civl_refine.specs.Walked.{sorts_from};

use crate::failures::failing;
use crate::finding::start_at;
use crate::start::Start;
use crate::walking::walk_from;
use civl_bodies::{Bodies, Body, body_at};
use civl_conditions::{Condition, Part};
use civl_layers::{Held, Layered, program};
use civl_terms::{Id, Memory, Terms};
use civl_tree::Sort;
use std::alloc::Global as Alloc;

/// K9 from a cut: what is assumed there holds, and a part fails on the path from there.
fn path_at(
    alloc: Alloc,
    terms: &mut Terms,
    sorts: &[Sort],
    start: &Start<'_>,
    part: Part,
    body: &Body<'_>,
) -> Result<Id, Memory>
    requires layered { IsLayered start.now.program.now }
    requires linear { Keeps linear_rules start.now.program.now }
    requires start { IsStart start.now }
    requires there { slice_get (proc_cuts start.now.proc.now) start.now.number ≡ Some start.now.cut }
    requires body { IsBody start.now.proc.now body.now }
    requires sorts { sorts.now ≡ sorts_from start.now }
    requires variables { AreVariablesOf terms.old sorts.now }
    ensures says { IfOk result (λ id. IsFormula terms.new id (sorts_from start.now) (λ values. path_fails start.now.program.now start.now.step part start.now.proc.now start.now.number start.now.cut (begun start.now.program.now start.now.step start.now.proc.now start.now.cut values))) }
    ensures weighs { OnOk result (graph_weight terms.new ≤ graph_weight terms.old + 4 * (bits_of_variables (path_variables start.now.program.now start.now.step start.now.proc.now start.now.cut) + path_weight start.now.program.now start.now.step part start.now.proc.now start.now.number start.now.cut)) }
    ensures lengthens { Lengthens terms.old terms.new }
{
    let walked = walk_from(alloc, terms, sorts, start, body)?;
    let id = failing(
        alloc,
        terms,
        start,
        part,
        &walked.beginning,
        &walked.walk,
        body.cuts.as_slice(),
        body.statements.as_slice(),
    )?;
    Ok(id)
}

/// K9 from the cut with these numbers.
fn path_fails(
    alloc: Alloc,
    terms: &mut Terms,
    src: &Layered,
    held: &Held,
    bodies: &Bodies<'_>,
    sorts: &[Sort],
    part: Part,
    step: u32,
    number: u32,
    place: u32,
) -> Result<Id, Memory>
    requires linear { Keeps linear_rules src.now }
    requires held { held.now.cuts ≡ all_held src.now }
    requires bodies { AreBodies src.now bodies.now }
    requires there { HasCut src.now number place }
    requires sorts { sorts.now ≡ sorts_of src.now (Path part step number place) }
    requires variables { AreVariablesOf terms.old sorts.now }
    ensures says { IfOk result (λ id. IsViolation terms.new id src.now (Path part step number place)) }
    ensures weighs { OnOk result (graph_weight terms.new ≤ graph_weight terms.old + 4 * weight src.now (Path part step number place)) }
    ensures lengthens { Lengthens terms.old terms.new }
{
    let program = program(src);
    let proc = program.procs.get(number as usize);
    let body = body_at(bodies, src, number);
    let cut = body.cuts.as_slice()[place as usize];
    let start = start_at(
        program,
        held,
        step,
        number,
        proc,
        place,
        cut,
        body.statements.as_slice(),
    );
    let id = path_at(alloc, terms, sorts, &start, part, body)?;
    Ok(id)
}

/// The term of the formula that values violate a condition on paths, K9. The graph's variables are those of the condition, whose
/// sorts are given in their order.
///
/// The condition is of this kind, and its cut is there; the program keeps the rules E40 to E43; `held` has what is held at each cut,
/// and `bodies` what belongs to each procedure. The graph's weight rises by at most four times the condition's.
///
/// # Errors
///
/// For want of memory, also for 2^32 variables or more; the nodes before stay.
pub fn violation(
    alloc: Alloc,
    terms: &mut Terms,
    src: &Layered,
    held: &Held,
    bodies: &Bodies<'_>,
    sorts: &[Sort],
    condition: &Condition,
) -> Result<Id, Memory>
    requires kind { IsOfPaths src.now condition.now }
    requires linear { Keeps linear_rules src.now }
    requires held { held.now.cuts ≡ all_held src.now }
    requires bodies { AreBodies src.now bodies.now }
    requires sorts { sorts.now ≡ sorts_of src.now condition.now }
    requires variables { AreVariablesOf terms.old (sorts_of src.now condition.now) }
    ensures says { IfOk result (λ id. IsViolation terms.new id src.now condition.now) }
    ensures weighs { OnOk result (graph_weight terms.new ≤ graph_weight terms.old + 4 * weight src.now condition.now) }
    ensures lengthens { Lengthens terms.old terms.new }
{
    match *condition {
        Condition::Path(part, step, number, place) => {
            path_fails(
                alloc, terms, src, held, bodies, sorts, part, step, number, place,
            )
        }
        _ => unreachable!(),
    }
}
