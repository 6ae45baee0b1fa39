// The paths from a cut, with variables at their beginning.
ghost use Rattle.std.specs.Prelude.{◌≡◌, ◌+◌, ◌*◌, ◌≤◌, ℕ, All, IsTrue, IfOk, OnOk, Some, slice_get};
ghost use Rattle.civl_tree.specs.rules.Rules.{Keeps};
ghost use Rattle.civl_firing.specs.values.Values.{is_sort};
ghost use Rattle.civl_bodies.specs.Bodies.{IsBody};
ghost use Rattle.civl_layers.specs.Cuts.{proc_cuts};
ghost use Rattle.civl_layers.specs.Layered.{IsLayered};
ghost use Rattle.civl_linear.specs.LinearRules.{linear_rules};
ghost use Rattle.civl_terms.specs.Building.{Lengthens};
ghost use Rattle.civl_terms.specs.Weights.{graph_weight};
ghost use Rattle.civl_conditions.specs.Values.{layout, begun};
ghost use Rattle.civl_conditions.specs.Variables.{path_variables};
ghost use Rattle.civl_conditions.specs.Weights.{bits_of_variables, passed_weight};
ghost use Rattle.civl_states.specs.formula_parts.Given.{given, AreVariablesOf};
ghost use Rattle.civl_states.specs.Groups.{StandFrom};
ghost use Rattle.civl_refine.specs.Assuming.{IsStart};
ghost use Rattle.civl_refine.specs.Walked.{IsWalked, CanWalk, sorts_from};

use crate::start::Start;
use civl_bodies::Body;
use civl_body::{Walk, walk};
use civl_states::{Beginning, begin};
use civl_terms::{Memory, Terms};
use civl_tree::Sort;
use std::alloc::Global as Alloc;

/// What the paths from a cut begin with, and what they come to, as terms.
#[derive(Drop)]
pub struct Walked {
    pub beginning: Beginning,
    pub walk: Walk,
}

/// The paths from a cut, with variables at their beginning. The sorts are those of all the formula's variables, the first of which
/// are those of the paths.
///
/// The graph's weight rises by at most the bits of the paths' variables, and four times what a condition's weight counts for the
/// statements that are passed.
///
/// # Errors
///
/// For want of memory, also for 2^32 variables or more; the nodes before stay.
pub fn walk_from(
    alloc: Alloc,
    terms: &mut Terms,
    sorts: &[Sort],
    start: &Start<'_>,
    body: &Body<'_>,
) -> Result<Walked, Memory>
    requires layered { IsLayered start.now.program.now }
    requires linear { Keeps linear_rules start.now.program.now }
    requires start { IsStart start.now }
    requires there { slice_get (proc_cuts start.now.proc.now) start.now.number ≡ Some start.now.cut }
    requires body { IsBody start.now.proc.now body.now }
    requires stand { StandFrom sorts.now 0 (sorts_from start.now) }
    requires limits { All (λ s. IsTrue (is_sort s)) sorts.now }
    requires variables { AreVariablesOf terms.old sorts.now }
    ensures walked { IfOk result (λ w. (n : ℕ) → (layout start.now.program.now start.now.step start.now.proc.now start.now.cut).behind ≤ n → IsWalked terms.new start.now (λ env. begun start.now.program.now start.now.step start.now.proc.now start.now.cut (given env 0 n)) w) }
    ensures can { IfOk result (λ w. CanWalk terms.new start.now w) }
    ensures variables { IfOk result (λ w. AreVariablesOf terms.new sorts.now) }
    ensures lengthens { Lengthens terms.old terms.new }
    ensures weighs { OnOk result (graph_weight terms.new ≤ graph_weight terms.old + bits_of_variables (path_variables start.now.program.now start.now.step start.now.proc.now start.now.cut) + 4 * passed_weight start.now.program.now start.now.step start.now.proc.now start.now.cut) }
{
    if sorts.len() > u32::MAX as usize {
        return Err(Memory);
    }
    let program = start.program;
    let proc = start.proc;
    let step = start.step;
    let cut = start.cut;
    let number = start.number;
    let cuts = body.cuts.as_slice();
    let beginning = begin(alloc, terms, program, sorts, step, proc, number, cut, body)?;
    let walk = walk(alloc, terms, program, step, proc, cut, cuts, &beginning)?;
    Ok(Walked { beginning, walk })
}
