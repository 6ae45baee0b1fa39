// When a part of the condition on paths fails.
ghost use Rattle.std.specs.Prelude.{◌≡◌, ◌+◌, ◌*◌, ◌≤◌, ◌&&◌, not, Bool, Some, All, IfOk, OnOk, map, if◌then◌else◌};
ghost use Rattle.civl_tree.specs.declared.expr.Sort.TheVariants.{Bool as Truth};
ghost use Rattle.civl_tree.specs.Numbering.{statements_of};
ghost use Rattle.civl_terms.specs.Graphs.{sort_at};
ghost use Rattle.civl_terms.specs.Building.{Grows};
ghost use Rattle.civl_terms.specs.Weights.{graph_weight};
ghost use Rattle.civl_conditions.specs.paths.Paths.{Outcome};
ghost use Rattle.civl_conditions.specs.paths.Ends.{is_rank_loop};
ghost use Rattle.civl_conditions.specs.Assumed as says;
ghost use Rattle.civl_conditions.specs.Parts.{part_fails};
ghost use Rattle.civl_conditions.specs.Values.{Begun};
ghost use Rattle.civl_conditions.specs.Weights.{base_weight, part_weight, summed};
ghost use Rattle.civl_states.specs.formula_parts.Said.{Env, IsTest};
ghost use Rattle.civl_states.specs.Beginnings.{AreBegun, CanBegin};
ghost use Rattle.civl_body.specs.Walks.{IsWay, CanTake};
ghost use Rattle.civl_refine.specs.Assuming.{IsStart, BeginsAt};
ghost use Rattle.civl_refine.specs.Judging.{AreCuts, fails_before};
ghost use Rattle.civl_refine.specs.Failing.{ArrivesAmong, SaysBefore};

use crate::assumption::assumed;
use crate::start::Start;
use crate::ways::with_ways;
use civl_bits::Value;
use civl_body::Walk;
use civl_conditions::Part;
use civl_layers::Cut;
use civl_states::Beginning;
use civl_states::formula_parts::{both, negated};
use civl_terms::{Id, Memory, Terms};
use civl_tree::Stmt;
use std::alloc::Global as Alloc;

/// Whether a part is kept before an end.
fn kept_before(terms: &mut Terms, part: Part, walk: &Walk) -> Result<Id, Memory>
    requires safe { sort_at terms.old walk.now.safe ≡ Some Truth }
    requires once { sort_at terms.old walk.now.once ≡ Some Truth }
    ensures test { IfOk result (λ id. (o : Env → Outcome) → SaysBefore terms.old walk.now o → IsTest terms.new id (λ env. not (fails_before (o env) part))) }
    ensures sorted { IfOk result (λ id. sort_at terms.new id ≡ Some Truth) }
    ensures grows { Grows terms.old terms.new }
    ensures weighs { OnOk result (graph_weight terms.new ≤ graph_weight terms.old) }
{
    let yes = terms.constant(Value::Bool(true))?;
    match part {
        Part::Gate => Ok(walk.safe),
        Part::Once => Ok(walk.once),
        Part::Invariant => Ok(yes),
        Part::Stutter => Ok(yes),
        Part::Perform => Ok(yes),
        Part::Rank => Ok(yes),
    }
}

/// Whether what is assumed at a cut holds, and a part of the condition on paths fails on the walk from there. The graph's weight
/// rises by at most four times what a condition's weight counts for both; and, from a rank loop, by 2 more. It is said of
/// beginnings with `BeginsAt`: old `done` is `done` but at a rank loop, and both are false at the entry.
///
/// # Errors
///
/// For want of memory; the nodes before stay.
pub fn failing(
    alloc: Alloc,
    terms: &mut Terms,
    start: &Start<'_>,
    part: Part,
    beginning: &Beginning,
    walk: &Walk,
    cuts: &[Cut],
    flat: &[&Stmt],
) -> Result<Id, Memory>
    requires start { IsStart start.now }
    requires begins { CanBegin terms.old start.now.program.now start.now.step start.now.proc.now start.now.cut beginning.now }
    requires safe { sort_at terms.old walk.now.safe ≡ Some Truth }
    requires once { sort_at terms.old walk.now.once ≡ Some Truth }
    requires ways { All (CanTake terms.old start.now.program.now start.now.proc.now) walk.now.ways }
    requires cuts { AreCuts start.now.proc.now cuts.now }
    requires flat { map (λ s. s.now) flat.now ≡ statements_of start.now.proc.now.body }
    ensures test { IfOk result (λ id. (b : Env → Begun) (o : Env → Outcome) → ((env : Env) → BeginsAt start.now.cut.kind (b env)) → AreBegun terms.old start.now.program.now start.now.step start.now.proc.now start.now.cut beginning.now b → SaysBefore terms.old walk.now o → All (IsWay terms.old start.now.program.now start.now.proc.now o) walk.now.ways → ((env : Env) → ArrivesAmong start.now.proc.now (map (λ w. w.end) walk.now.ways) (o env)) → IsTest terms.new id (λ env. says.assumed start.now.program.now start.now.step start.now.proc.now start.now.number start.now.cut (b env) && part_fails start.now.program.now start.now.step start.now.proc.now start.now.number start.now.cut (b env) (o env) part)) }
    ensures sorted { IfOk result (λ id. sort_at terms.new id ≡ Some Truth) }
    ensures grows { Grows terms.old terms.new }
    ensures weighs { OnOk result (graph_weight terms.new ≤ graph_weight terms.old + 4 * base_weight start.now.program.now start.now.step start.now.proc.now start.now.number start.now.cut + 4 * summed (map (part_weight start.now.program.now start.now.step start.now.proc.now start.now.cut part) (map (λ w. w.end) walk.now.ways)) + (if is_rank_loop start.now.cut.kind then 2 else 0)) }
{
    let first = kept_before(terms, part, walk)?;
    let kept = with_ways(
        alloc,
        terms,
        start,
        part,
        beginning,
        walk.ways.as_slice(),
        cuts,
        flat,
        first,
    )?;
    let fails = negated(terms, kept)?;
    let given = assumed(alloc, terms, start, beginning)?;
    let id = both(terms, given, fails)?;
    Ok(id)
}
