// Blocks that lose what has to be kept.
ghost use Rattle.std.specs.Prelude.{◌≡◌, ◌+◌, ◌*◌, ◌≤◌, ◌&&◌, Bool, All, Some, IfOk, OnOk, map, if◌then◌else◌};
ghost use Rattle.std.specs.List.{list_all};
ghost use Rattle.civl_tree.specs.declared.expr.Sort.TheVariants.{Bool as Truth};
ghost use Rattle.civl_terms.specs.Graphs.{sort_at};
ghost use Rattle.civl_terms.specs.Building.{Grows};
ghost use Rattle.civl_terms.specs.Weights.{graph_weight};
ghost use Rattle.civl_conditions.specs.paths.Paths.{Outcome};
ghost use Rattle.civl_conditions.specs.paths.Ends.{ends_from, is_rank_loop};
ghost use Rattle.civl_conditions.specs.Targets.{Other};
ghost use Rattle.civl_conditions.specs.Values.{Begun};
ghost use Rattle.civl_conditions.specs.Weights.{base_weight, summed};
ghost use Rattle.civl_states.specs.formula_parts.Said.{Env, IsTest};
ghost use Rattle.civl_body.specs.Walks.{IsWay, CanTake};
ghost use Rattle.civl_refine.specs.Assuming.{IsStart, BeginsAt};
ghost use Rattle.civl_refine.specs.Failing.{ArrivesAmong};
ghost use Rattle.civl_refine.specs.Judging.{AreCuts};
ghost use Rattle.civl_refine.specs.Walked.{IsWalked, CanWalk, outcome_from};
ghost use Rattle.civl_refine.specs.inner.steadiness.Kept.{CanKeep, SaysOther, kept_before, kept_weight};
ghost use Rattle.civl_refine.specs.inner.steadiness.Losing.{block_loses, block_lost, end_weight, kept_at_end, kept_on_way, together_weight};

use crate::steadiness::apart::with_apart;
use crate::steadiness::kept::{Kept, kept_after, kept_before};
use crate::{Start, Walked, assumed, ends_block};
use civl_bits::Value;
use civl_body::Way;
use civl_layers::Cut;
use civl_moves::implied;
use civl_states::formula_parts::{both, negated};
use civl_terms::{Id, Memory, Terms};
use std::alloc::Global as Alloc;

/// Whether a test is true, and what was so before a block is kept at the end of a way that is taken, which ends the block.
fn with_end(
    alloc: Alloc,
    terms: &mut Terms,
    start: &Start<'_>,
    kept: &Kept<'_>,
    before: Id,
    way: &Way,
    test: Id,
) -> Result<Id, Memory>
    requires start { IsStart start.now }
    requires kept { CanKeep terms.old start.now.program.now kept.now }
    requires before { sort_at terms.old before ≡ Some Truth }
    requires way { CanTake terms.old start.now.program.now start.now.proc.now way.now }
    requires test { sort_at terms.old test ≡ Some Truth }
    ensures test { IfOk result (λ id. (f : Env → Bool) (b : Env → Begun) (o : Env → Other) (out : Env → Outcome) → IsTest terms.old test f → IsTest terms.old before (λ env. kept_before start.now.program.now kept.now (o env) (b env).old) → SaysOther terms.old kept.now o → IsWay terms.old start.now.program.now start.now.proc.now out way.now → IsTest terms.new id (λ env. f env && kept_on_way start.now kept.now (b env) (o env) (out env) way.now.end)) }
    ensures sorted { IfOk result (λ id. sort_at terms.new id ≡ Some Truth) }
    ensures grows { Grows terms.old terms.new }
    ensures weighs { OnOk result (graph_weight terms.new ≤ graph_weight terms.old + kept_weight start.now.program.now start.now.step kept.now + 3) }
{
    let _count = terms.len();
    let after = kept_after(alloc, terms, start.program, start.step, kept, &way.globals)?;
    let stays = implied(terms, before, after)?;
    let taken = implied(terms, way.taken, stays)?;
    let id = both(terms, test, taken)?;
    Ok(id)
}

/// Whether a test is true, and what was so before a block is kept at the end of a way, if it is taken and ends the block.
fn with_way(
    alloc: Alloc,
    terms: &mut Terms,
    start: &Start<'_>,
    kept: &Kept<'_>,
    before: Id,
    way: &Way,
    cuts: &[Cut],
    test: Id,
) -> Result<Id, Memory>
    requires start { IsStart start.now }
    requires kept { CanKeep terms.old start.now.program.now kept.now }
    requires before { sort_at terms.old before ≡ Some Truth }
    requires way { CanTake terms.old start.now.program.now start.now.proc.now way.now }
    requires cuts { AreCuts start.now.proc.now cuts.now }
    requires test { sort_at terms.old test ≡ Some Truth }
    ensures test { IfOk result (λ id. (f : Env → Bool) (b : Env → Begun) (o : Env → Other) (out : Env → Outcome) → IsTest terms.old test f → IsTest terms.old before (λ env. kept_before start.now.program.now kept.now (o env) (b env).old) → SaysOther terms.old kept.now o → IsWay terms.old start.now.program.now start.now.proc.now out way.now → IsTest terms.new id (λ env. f env && kept_at_end start.now kept.now (b env) (o env) (out env) way.now.end)) }
    ensures sorted { IfOk result (λ id. sort_at terms.new id ≡ Some Truth) }
    ensures grows { Grows terms.old terms.new }
    ensures weighs { OnOk result (graph_weight terms.new ≤ graph_weight terms.old + 4 * end_weight start.now (kept_weight start.now.program.now start.now.step kept.now) way.now.end) }
{
    if ends_block(cuts, way.end) {
        let id = with_end(alloc, terms, start, kept, before, way, test)?;
        return Ok(id);
    }
    Ok(test)
}

/// Whether a test is true, and what was so before a block is kept at the end of each of these ways that is taken and ends the block.
fn with_ways(
    alloc: Alloc,
    terms: &mut Terms,
    start: &Start<'_>,
    kept: &Kept<'_>,
    before: Id,
    ways: &[Way],
    cuts: &[Cut],
    test: Id,
) -> Result<Id, Memory>
    requires start { IsStart start.now }
    requires kept { CanKeep terms.old start.now.program.now kept.now }
    requires before { sort_at terms.old before ≡ Some Truth }
    requires ways { All (CanTake terms.old start.now.program.now start.now.proc.now) ways.now }
    requires cuts { AreCuts start.now.proc.now cuts.now }
    requires test { sort_at terms.old test ≡ Some Truth }
    ensures test { IfOk result (λ id. (f : Env → Bool) (b : Env → Begun) (o : Env → Other) (out : Env → Outcome) → IsTest terms.old test f → IsTest terms.old before (λ env. kept_before start.now.program.now kept.now (o env) (b env).old) → SaysOther terms.old kept.now o → All (IsWay terms.old start.now.program.now start.now.proc.now out) ways.now → IsTest terms.new id (λ env. f env && list_all (kept_at_end start.now kept.now (b env) (o env) (out env)) (map (λ w. w.end) ways.now))) }
    ensures sorted { IfOk result (λ id. sort_at terms.new id ≡ Some Truth) }
    ensures grows { Grows terms.old terms.new }
    ensures weighs { OnOk result (graph_weight terms.new ≤ graph_weight terms.old + 4 * summed (map (end_weight start.now (kept_weight start.now.program.now start.now.step kept.now)) (map (λ w. w.end) ways.now))) }
{
    let mut id = test;
    for way in ways {
        id = with_way(alloc, terms, start, kept, before, way, cuts, id)?;
    }
    Ok(id)
}

/// Whether a block from a cut loses what has to be kept.
fn ends_lose(
    alloc: Alloc,
    terms: &mut Terms,
    start: &Start<'_>,
    kept: &Kept<'_>,
    walked: &Walked,
    cuts: &[Cut],
) -> Result<Id, Memory>
    requires start { IsStart start.now }
    requires kept { CanKeep terms.old start.now.program.now kept.now }
    requires walked { CanWalk terms.old start.now walked.now }
    requires cuts { AreCuts start.now.proc.now cuts.now }
    ensures test { IfOk result (λ id. (b : Env → Begun) (o : Env → Other) → IsWalked terms.old start.now b walked.now → SaysOther terms.old kept.now o → ((env : Env) → ArrivesAmong start.now.proc.now (map (λ w. w.end) walked.now.walk.ways) (outcome_from start.now (b env))) → IsTest terms.new id (λ env. block_lost start.now kept.now (b env) (o env))) }
    ensures sorted { IfOk result (λ id. sort_at terms.new id ≡ Some Truth) }
    ensures grows { Grows terms.old terms.new }
    ensures weighs { OnOk result (graph_weight terms.new ≤ graph_weight terms.old + kept_weight start.now.program.now start.now.step kept.now + 4 * summed (map (end_weight start.now (kept_weight start.now.program.now start.now.step kept.now)) (map (λ w. w.end) walked.now.walk.ways)) + 1) }
{
    let before = kept_before(
        alloc,
        terms,
        start.program,
        kept,
        &walked.beginning.old_globals,
    )?;
    let yes = terms.constant(Value::Bool(true))?;
    let stays = with_ways(
        alloc,
        terms,
        start,
        kept,
        before,
        walked.walk.ways.as_slice(),
        cuts,
        yes,
    )?;
    let id = negated(terms, stays)?;
    Ok(id)
}

/// Whether what is assumed at a cut holds, what is owned there and by the other frame is pairwise disjoint, and a block from there
/// loses what has to be kept.
pub(crate) fn block_loses(
    alloc: Alloc,
    terms: &mut Terms,
    start: &Start<'_>,
    kept: &Kept<'_>,
    walked: &Walked,
    cuts: &[Cut],
) -> Result<Id, Memory>
    requires start { IsStart start.now }
    requires kept { CanKeep terms.old start.now.program.now kept.now }
    requires walked { CanWalk terms.old start.now walked.now }
    requires cuts { AreCuts start.now.proc.now cuts.now }
    ensures test { IfOk result (λ id. (b : Env → Begun) (o : Env → Other) → ((env : Env) → BeginsAt start.now.cut.kind (b env)) → IsWalked terms.old start.now b walked.now → SaysOther terms.old kept.now o → ((env : Env) → ArrivesAmong start.now.proc.now (map (λ w. w.end) walked.now.walk.ways) (outcome_from start.now (b env))) → IsTest terms.new id (λ env. block_loses start.now kept.now (b env) (o env))) }
    ensures sorted { IfOk result (λ id. sort_at terms.new id ≡ Some Truth) }
    ensures grows { Grows terms.old terms.new }
    ensures weighs { OnOk result (graph_weight terms.new ≤ graph_weight terms.old + 4 * base_weight start.now.program.now start.now.step start.now.proc.now start.now.number start.now.cut + kept_weight start.now.program.now start.now.step kept.now + 4 * summed (map (end_weight start.now (kept_weight start.now.program.now start.now.step kept.now)) (ends_from start.now.proc.now start.now.cut)) + together_weight start.now kept.now + (if is_rank_loop start.now.cut.kind then 2 else 0)) }
{
    let lost = ends_lose(alloc, terms, start, kept, walked, cuts)?;
    let apart = with_apart(alloc, terms, start, &walked.beginning, kept, lost)?;
    let given = assumed(alloc, terms, start, &walked.beginning)?;
    let id = both(terms, given, apart)?;
    Ok(id)
}
