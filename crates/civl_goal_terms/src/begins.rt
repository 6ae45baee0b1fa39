// The goals of beginnings.
ghost use Rattle.std.specs.Prelude.{◌≡◌, ◌+◌, ◌*◌, ◌≤◌, ◌<◌, ◌&&◌, ℕ, not, length, slice_get, Some, IfOk, OnOk};
ghost use Rattle.civl_tree.specs.declared.expr.Sort.TheVariants.{Bool as Truth};
ghost use Rattle.civl_tree.specs.declared.program.Thread.{Thread as Declared};
ghost use Rattle.civl_meaning.specs.Meaning.{proc_number};
ghost use Rattle.civl_layers.specs.Layered.{IsLayered};
ghost use Rattle.civl_terms.specs.Graphs.{sort_at};
ghost use Rattle.civl_terms.specs.Building.{Grows, Lengthens};
ghost use Rattle.civl_terms.specs.Weights.{graph_weight};
ghost use Rattle.civl_conditions.specs.Invariants.{meets_init};
ghost use Rattle.civl_conditions.specs.Weights.{initial_own};
ghost use Rattle.civl_states.specs.formula_parts.Given.{AreVariablesOf};
ghost use Rattle.civl_states.specs.Stores.{AreGlobals};
ghost use Rattle.civl_movers.specs.interfere.Arguments.{thread_weight};
ghost use Rattle.civl_goals.specs.declared.goal.Goal.TheVariants as goal;
ghost use Rattle.civl_goals.specs.Outlines.{invariant_holds};
ghost use Rattle.civl_goals.specs.Failed.{thread_fails};
ghost use Rattle.civl_goals.specs.Weights.{invariant_weight, first_note_weight, weight};
ghost use Rattle.civl_goal_terms.specs.Formulas.{sorts_of, IsViolation};
ghost use Rattle.civl_goal_terms.specs.inner.Outlined.{IsOutlined};
ghost use Rattle.civl_goal_terms.specs.inner.Told.{TellsStore};

use crate::frames::begins_astray;
use crate::holds::holds_at;
use civl_movers::interfere::{argument_terms, initial_at};
use civl_moves::without;
use civl_outlines::Outline;
use civl_states::formula_parts::both;
use civl_states::{Existing, store};
use civl_terms::{Id, Memory, Terms};
use civl_tree::{List, Program, Sort, Thread};
use std::alloc::Global as Alloc;

/// Whether a store is initial and some hold isn't true in it.
fn invariant_at(
    alloc: Alloc,
    terms: &mut Terms,
    program: &Program,
    outline: &Outline,
    globals: &List<Id>,
) -> Result<Id, Memory>
    requires layered { IsLayered program.now }
    requires outlined { IsOutlined program.now outline.now }
    requires globals { AreGlobals terms.old program.now globals.now }
    ensures tells { IfOk result (λ id. TellsStore terms.old terms.new program.now globals.now (λ g. meets_init program.now g && not (invariant_holds program.now outline.now g)) id) }
    ensures sorted { IfOk result (λ id. sort_at terms.new id ≡ Some Truth) }
    ensures weighs { OnOk result (graph_weight terms.new ≤ graph_weight terms.old + 4 * initial_own program.now + 2 * invariant_weight program.now outline.now + 3) }
    ensures grows { Grows terms.old terms.new }
{
    let initial = initial_at(alloc, terms, program, globals)?;
    let holds = holds_at(terms, program, outline, globals)?;
    let id = without(terms, initial, holds)?;
    Ok(id)
}

/// The goal that initial stores meet the invariant.
pub(crate) fn invariant_fails(
    alloc: Alloc,
    terms: &mut Terms,
    program: &Program,
    outline: &Outline,
    sorts: &[Sort],
) -> Result<Id, Memory>
    requires layered { IsLayered program.now }
    requires outlined { IsOutlined program.now outline.now }
    requires sorts { sorts.now ≡ sorts_of program.now goal.Invariant }
    requires variables { AreVariablesOf terms.old sorts.now }
    ensures says { IfOk result (λ id. IsViolation terms.new id program.now outline.now goal.Invariant) }
    ensures weighs { OnOk result (graph_weight terms.new ≤ graph_weight terms.old + 4 * weight program.now outline.now goal.Invariant) }
    ensures lengthens { Lengthens terms.old terms.new }
{
    let globals = store(alloc, terms, program, sorts, Existing::All, 0)?;
    let id = invariant_at(alloc, terms, program, outline, &globals)?;
    Ok(id)
}

/// Whether a declared thread begins in a store where its first note isn't true.
fn thread_astray(
    alloc: Alloc,
    terms: &mut Terms,
    program: &Program,
    outline: &Outline,
    thread: &Thread,
    globals: &List<Id>,
) -> Result<Id, Memory>
    requires layered { IsLayered program.now }
    requires outlined { IsOutlined program.now outline.now }
    requires thread { (number : ℕ) × (slice_get program.now.threads number ≡ Some thread.now) }
    requires globals { AreGlobals terms.old program.now globals.now }
    ensures tells { IfOk result (λ id. TellsStore terms.old terms.new program.now globals.now (λ g. thread_fails program.now outline.now g thread.now) id) }
    ensures sorted { IfOk result (λ id. sort_at terms.new id ≡ Some Truth) }
    ensures weighs { OnOk result (graph_weight terms.new ≤ graph_weight terms.old + thread_weight program.now thread.now + first_note_weight program.now outline.now (proc_number program.now thread.now.callee) + 1) }
    ensures grows { Grows terms.old terms.new }
{
    let args = argument_terms(
        alloc,
        terms,
        program,
        thread.args.as_slice(),
        globals.as_slice(),
    )?;
    let id = begins_astray(
        alloc,
        terms,
        program,
        outline,
        &thread.callee,
        globals,
        List::from_vec(args),
    )?;
    Ok(id)
}

/// Whether a store is initial and a declared thread begins in it where its first note isn't true.
fn thread_at(
    alloc: Alloc,
    terms: &mut Terms,
    program: &Program,
    outline: &Outline,
    number: u32,
    globals: &List<Id>,
) -> Result<Id, Memory>
    requires layered { IsLayered program.now }
    requires outlined { IsOutlined program.now outline.now }
    requires number { number < length program.now.threads }
    requires globals { AreGlobals terms.old program.now globals.now }
    ensures tells { IfOk result (λ id. (t : Declared) → slice_get program.now.threads number ≡ Some t → TellsStore terms.old terms.new program.now globals.now (λ g. meets_init program.now g && thread_fails program.now outline.now g t) id) }
    ensures sorted { IfOk result (λ id. sort_at terms.new id ≡ Some Truth) }
    ensures weighs { OnOk result ((t : Declared) → slice_get program.now.threads number ≡ Some t → graph_weight terms.new ≤ graph_weight terms.old + 4 * initial_own program.now + first_note_weight program.now outline.now (proc_number program.now t.callee) + 3) }
    ensures grows { Grows terms.old terms.new }
{
    let thread = program.threads.get(number as usize);
    let initial = initial_at(alloc, terms, program, globals)?;
    let astray = thread_astray(alloc, terms, program, outline, thread, globals)?;
    let id = both(terms, initial, astray)?;
    Ok(id)
}

/// The goal that a declared thread may begin.
pub(crate) fn thread_begins_astray(
    alloc: Alloc,
    terms: &mut Terms,
    program: &Program,
    outline: &Outline,
    sorts: &[Sort],
    number: u32,
) -> Result<Id, Memory>
    requires layered { IsLayered program.now }
    requires outlined { IsOutlined program.now outline.now }
    requires number { number < length program.now.threads }
    requires sorts { sorts.now ≡ sorts_of program.now (goal.Thread number) }
    requires variables { AreVariablesOf terms.old sorts.now }
    ensures says { IfOk result (λ id. IsViolation terms.new id program.now outline.now (goal.Thread number)) }
    ensures weighs { OnOk result (graph_weight terms.new ≤ graph_weight terms.old + 4 * weight program.now outline.now (goal.Thread number)) }
    ensures lengthens { Lengthens terms.old terms.new }
{
    let globals = store(alloc, terms, program, sorts, Existing::All, 0)?;
    let id = thread_at(alloc, terms, program, outline, number, &globals)?;
    Ok(id)
}
