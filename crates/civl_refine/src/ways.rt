// A part of the condition on paths over all ways.
ghost use Rattle.std.specs.Prelude.{◌≡◌, ◌+◌, ◌*◌, ◌≤◌, ◌&&◌, ◌||◌, not, Bool, Some, All, IfOk, OnOk, map};
ghost use Rattle.std.specs.List.{list_all};
ghost use Rattle.civl_tree.specs.declared.expr.Sort.TheVariants.{Bool as Truth};
ghost use Rattle.civl_tree.specs.Numbering.{statements_of};
ghost use Rattle.civl_terms.specs.Graphs.{sort_at};
ghost use Rattle.civl_terms.specs.Building.{Grows};
ghost use Rattle.civl_terms.specs.Weights.{graph_weight};
ghost use Rattle.civl_conditions.specs.paths.Paths.{Outcome};
ghost use Rattle.civl_conditions.specs.Values.{Begun};
ghost use Rattle.civl_conditions.specs.Weights.{part_weight, summed};
ghost use Rattle.civl_states.specs.formula_parts.Said.{Env, IsTest};
ghost use Rattle.civl_states.specs.Beginnings.{AreBegun, CanBegin};
ghost use Rattle.civl_body.specs.Walks.{IsWay, CanEnd, CanTake};
ghost use Rattle.civl_refine.specs.Assuming.{IsStart};
ghost use Rattle.civl_refine.specs.Judging.{AreCuts, Asks, IsAsked, KeepsAt};
ghost use Rattle.civl_refine.specs.Ways.{kept_by};

use crate::ends::{invariant_at, once_at, perform_at, rank_at, stutter_at};
use crate::start::Start;
use civl_body::Way;
use civl_conditions::Part;
use civl_layers::Cut;
use civl_moves::implied;
use civl_states::Beginning;
use civl_states::formula_parts::both;
use civl_terms::{Id, Memory, Terms};
use civl_tree::Stmt;
use std::alloc::Global as Alloc;

/// What a part asks at the end of a way.
fn kept_at(
    alloc: Alloc,
    terms: &mut Terms,
    start: &Start<'_>,
    part: Part,
    beginning: &Beginning,
    way: &Way,
    cuts: &[Cut],
    flat: &[&Stmt],
) -> Result<Option<Id>, Memory>
    requires start { IsStart start.now }
    requires begins { CanBegin terms.old start.now.program.now start.now.step start.now.proc.now start.now.cut beginning.now }
    requires ends { CanEnd terms.old start.now.program.now start.now.proc.now way.now }
    requires cuts { AreCuts start.now.proc.now cuts.now }
    requires flat { map (λ s. s.now) flat.now ≡ statements_of start.now.proc.now.body }
    ensures keeps { IfOk result (λ asked. KeepsAt terms.old terms.new start.now beginning.now way.now part asked) }
    ensures sorted { IfOk result (λ asked. IsAsked terms.new asked) }
    ensures grows { Grows terms.old terms.new }
    ensures weighs { OnOk result (graph_weight terms.new + 2 ≤ graph_weight terms.old + 4 * part_weight start.now.program.now start.now.step start.now.proc.now start.now.cut part way.now.end) }
{
    match part {
        Part::Gate => Ok(None),
        Part::Invariant => invariant_at(alloc, terms, start, beginning, way, cuts, flat),
        Part::Once => once_at(alloc, terms, start, beginning, way, cuts),
        Part::Stutter => stutter_at(alloc, terms, start, beginning, way, cuts),
        Part::Perform => perform_at(alloc, terms, start, beginning, way, cuts),
        Part::Rank => rank_at(alloc, terms, start, beginning, way, flat),
    }
}

/// Whether a test is true, and what is asked at the end of a way is true if the way is taken.
fn with_asked(terms: &mut Terms, taken: Id, asked: Option<Id>, test: Id) -> Result<Id, Memory>
    requires taken { sort_at terms.old taken ≡ Some Truth }
    requires asked { IsAsked terms.old asked }
    requires test { sort_at terms.old test ≡ Some Truth }
    ensures test { IfOk result (λ id. (f g h : Env → Bool) → IsTest terms.old test f → IsTest terms.old taken g → Asks terms.old asked h → IsTest terms.new id (λ env. f env && (not (g env) || h env))) }
    ensures sorted { IfOk result (λ id. sort_at terms.new id ≡ Some Truth) }
    ensures grows { Grows terms.old terms.new }
    ensures weighs { OnOk result (graph_weight terms.new ≤ graph_weight terms.old + 2) }
{
    match asked {
        Some(asked) => {
            let kept = implied(terms, taken, asked)?;
            let id = both(terms, test, kept)?;
            Ok(id)
        }
        None => Ok(test),
    }
}

/// Whether a test is true, and a part is kept at the end of a way if it is taken.
fn with_way(
    alloc: Alloc,
    terms: &mut Terms,
    start: &Start<'_>,
    part: Part,
    beginning: &Beginning,
    way: &Way,
    cuts: &[Cut],
    flat: &[&Stmt],
    test: Id,
) -> Result<Id, Memory>
    requires start { IsStart start.now }
    requires begins { CanBegin terms.old start.now.program.now start.now.step start.now.proc.now start.now.cut beginning.now }
    requires way { CanTake terms.old start.now.program.now start.now.proc.now way.now }
    requires cuts { AreCuts start.now.proc.now cuts.now }
    requires flat { map (λ s. s.now) flat.now ≡ statements_of start.now.proc.now.body }
    requires test { sort_at terms.old test ≡ Some Truth }
    ensures test { IfOk result (λ id. (f : Env → Bool) (b : Env → Begun) (o : Env → Outcome) → IsTest terms.old test f → AreBegun terms.old start.now.program.now start.now.step start.now.proc.now start.now.cut beginning.now b → IsWay terms.old start.now.program.now start.now.proc.now o way.now → IsTest terms.new id (λ env. f env && kept_by start.now part (b env) (o env) way.now.end)) }
    ensures sorted { IfOk result (λ id. sort_at terms.new id ≡ Some Truth) }
    ensures grows { Grows terms.old terms.new }
    ensures weighs { OnOk result (graph_weight terms.new ≤ graph_weight terms.old + 4 * part_weight start.now.program.now start.now.step start.now.proc.now start.now.cut part way.now.end) }
{
    let _count = terms.len();
    let asked = kept_at(alloc, terms, start, part, beginning, way, cuts, flat)?;
    let id = with_asked(terms, way.taken, asked, test)?;
    Ok(id)
}

/// Whether a test is true, and a part is kept at the end of each of these ways if it is taken. The graph's weight rises by at most
/// four times what a condition's weight counts for the part at these ends.
///
/// # Errors
///
/// For want of memory; the nodes before stay.
pub fn with_ways(
    alloc: Alloc,
    terms: &mut Terms,
    start: &Start<'_>,
    part: Part,
    beginning: &Beginning,
    ways: &[Way],
    cuts: &[Cut],
    flat: &[&Stmt],
    test: Id,
) -> Result<Id, Memory>
    requires start { IsStart start.now }
    requires begins { CanBegin terms.old start.now.program.now start.now.step start.now.proc.now start.now.cut beginning.now }
    requires ways { All (CanTake terms.old start.now.program.now start.now.proc.now) ways.now }
    requires cuts { AreCuts start.now.proc.now cuts.now }
    requires flat { map (λ s. s.now) flat.now ≡ statements_of start.now.proc.now.body }
    requires test { sort_at terms.old test ≡ Some Truth }
    ensures test { IfOk result (λ id. (f : Env → Bool) (b : Env → Begun) (o : Env → Outcome) → IsTest terms.old test f → AreBegun terms.old start.now.program.now start.now.step start.now.proc.now start.now.cut beginning.now b → All (IsWay terms.old start.now.program.now start.now.proc.now o) ways.now → IsTest terms.new id (λ env. f env && list_all (kept_by start.now part (b env) (o env)) (map (λ w. w.end) ways.now))) }
    ensures sorted { IfOk result (λ id. sort_at terms.new id ≡ Some Truth) }
    ensures grows { Grows terms.old terms.new }
    ensures weighs { OnOk result (graph_weight terms.new ≤ graph_weight terms.old + 4 * summed (map (part_weight start.now.program.now start.now.step start.now.proc.now start.now.cut part) (map (λ w. w.end) ways.now))) }
{
    let mut id = test;
    for way in ways {
        id = with_way(alloc, terms, start, part, beginning, way, cuts, flat, id)?;
    }
    Ok(id)
}
