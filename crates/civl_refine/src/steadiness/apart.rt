// What is owned at a cut and by another thread's frame is pairwise disjoint.
ghost use Rattle.std.specs.Prelude.{◌≡◌, ◌+◌, ◌*◌, ◌≤◌, ◌++◌, Bool, length, Some, IfOk, OnOk};
ghost use Rattle.civl_tree.specs.declared.expr.Sort.TheVariants.{Bool as Truth};
ghost use Rattle.civl_meaning.specs.Permissions.{pairwise_disjoint};
ghost use Rattle.civl_terms.specs.Graphs.{sort_at};
ghost use Rattle.civl_terms.specs.Building.{Grows};
ghost use Rattle.civl_terms.specs.Weights.{graph_weight};
ghost use Rattle.civl_conditions.specs.Assumed.{owned};
ghost use Rattle.civl_conditions.specs.Permissions.{of_held};
ghost use Rattle.civl_conditions.specs.Targets.{Other};
ghost use Rattle.civl_conditions.specs.Values.{Begun};
ghost use Rattle.civl_conditions.specs.Weights.{lin, linear_globals};
ghost use Rattle.civl_states.specs.formula_parts.Said.{Env, IsTest};
ghost use Rattle.civl_states.specs.Beginnings.{AreBegun, CanBegin};
ghost use Rattle.civl_refine.specs.Assuming.{IsStart};
ghost use Rattle.civl_refine.specs.inner.steadiness.Others.{IsYieldIn, AreFrame, SayFrame};
ghost use Rattle.civl_refine.specs.inner.steadiness.Kept.{CanKeep, SaysOther};
ghost use Rattle.civl_refine.specs.inner.steadiness.Losing.{apart_too, together_weight};

use crate::steadiness::kept::Kept;
use crate::steadiness::yielding::{Frame, Yielding};
use crate::{Start, held_ids, owned_items};
use civl_states::formula_parts::both;
use civl_states::{Beginning, with_words};
use civl_terms::{Id, Memory, Terms};
use std::alloc::Global as Alloc;

/// Whether what the linear globals, the held locals at a cut and those of another thread's frame carry is pairwise disjoint.
fn all_apart(
    alloc: Alloc,
    terms: &mut Terms,
    start: &Start<'_>,
    beginning: &Beginning,
    place: &Yielding<'_>,
    frame: &Frame,
) -> Result<Id, Memory>
    requires start { IsStart start.now }
    requires begins { CanBegin terms.old start.now.program.now start.now.step start.now.proc.now start.now.cut beginning.now }
    requires place { IsYieldIn start.now.program.now place.now }
    requires frame { AreFrame terms.old place.now.proc.now frame.now }
    ensures test { IfOk result (λ id. (b : Env → Begun) (o : Env → Other) → AreBegun terms.old start.now.program.now start.now.step start.now.proc.now start.now.cut beginning.now b → SayFrame terms.old place.now.proc.now frame.now o → IsTest terms.new id (λ env. pairwise_disjoint (owned start.now.program.now start.now.proc.now start.now.number (b env) ++ of_held place.now.held.now (o env).locals))) }
    ensures sorted { IfOk result (λ id. sort_at terms.new id ≡ Some Truth) }
    ensures grows { Grows terms.old terms.new }
    ensures weighs { OnOk result (graph_weight terms.new ≤ graph_weight terms.old + 4 * lin start.now.program.now (length start.now.held.now + linear_globals start.now.program.now + length place.now.held.now)) }
{
    let program = start.program;
    let own = owned_items(
        alloc,
        terms,
        program,
        &beginning.globals,
        &beginning.locals,
        start.held,
    )?;
    let ids = held_ids(alloc, frame.locals.as_slice(), place.held)?;
    let all = with_words(terms, program.permissions, own, ids.as_slice())?;
    Ok(all.apart)
}

/// Whether a test is true, and for a yield what is owned at a cut and by the other thread's frame is pairwise disjoint.
pub(crate) fn with_apart(
    alloc: Alloc,
    terms: &mut Terms,
    start: &Start<'_>,
    beginning: &Beginning,
    kept: &Kept<'_>,
    test: Id,
) -> Result<Id, Memory>
    requires start { IsStart start.now }
    requires begins { CanBegin terms.old start.now.program.now start.now.step start.now.proc.now start.now.cut beginning.now }
    requires kept { CanKeep terms.old start.now.program.now kept.now }
    requires test { sort_at terms.old test ≡ Some Truth }
    ensures test { IfOk result (λ id. (f : Env → Bool) (b : Env → Begun) (o : Env → Other) → IsTest terms.old test f → AreBegun terms.old start.now.program.now start.now.step start.now.proc.now start.now.cut beginning.now b → SaysOther terms.old kept.now o → IsTest terms.new id (λ env. apart_too start.now kept.now (b env) (o env) (f env))) }
    ensures sorted { IfOk result (λ id. sort_at terms.new id ≡ Some Truth) }
    ensures grows { Grows terms.old terms.new }
    ensures weighs { OnOk result (graph_weight terms.new ≤ graph_weight terms.old + together_weight start.now kept.now) }
{
    match kept {
        Kept::Invariant(_) => Ok(test),
        Kept::Yield(place, frame) => {
            let apart = all_apart(alloc, terms, start, beginning, place, frame)?;
            let id = both(terms, apart, test)?;
            Ok(id)
        }
    }
}
