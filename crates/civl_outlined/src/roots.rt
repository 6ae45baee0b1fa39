// What is worked out of each procedure.
ghost use Rattle.std.specs.Prelude.{ℕ, ◌≡◌, ◌<◌, ◌^◌, Some, true, false, List, length, slice_get, get_or, IfOk};
ghost use Rattle.std.specs.List.{AllZip};
ghost use Rattle.civl_tree.specs.declared.stmt.Stmt.{Stmt as Statement};
ghost use Rattle.civl_tree.specs.Numbering.{sizes_of, statements_of};
ghost use Rattle.civl_tree.specs.rules.Rules.{Keeps};
ghost use Rattle.civl_meaning.specs.Places.{is_skipped};
ghost use Rattle.civl_yields.specs.YieldRules.{yield_rules};
ghost use Rattle.civl_conditions.specs.Weights.{bits_of_variables};
ghost use Rattle.civl_goals.specs.Failed.{held_before};
ghost use Rattle.civl_goals.specs.Listed.{is_root};
ghost use Rattle.civl_goals.specs.Variables.{of_names};
ghost use Rattle.civl_weighing.specs.Weighing.{Weighs};
ghost use Rattle.civl_weights.specs.sums.Sums.{OfAction};
ghost use Rattle.civl_outlined.specs.inner.Places.{ArePlaces};
ghost use Rattle.civl_outlined.specs.inner.Said.{IsSaid, IsOf};
ghost use Rattle.civl_outlined.specs.inner.Sums.{AreThere, OfProc, AreProcs};

use crate::places::{Place, places_of};
use crate::said::Said;
use crate::statements::{StatementSums, statement_sums};
use civl_goals::held_counts;
use civl_layers::Layered;
use civl_tree::{List, Memory, Proc};
use civl_weighing::bits::{locals_bits, params_bits};
use civl_weighing::weight::Weight;
use civl_weights::sums::actions::ActionSums;
use std::alloc::Global;

/// Of a procedure: the bits of a frame, and of a root the sums of each statement.
#[derive(Drop)]
pub(crate) struct ProcSums {
    pub frame: Weight,
    pub statements: List<StatementSums>,
}

/// The bits of a frame of this procedure.
fn frame_bits(proc: &Proc) -> Weight
    ensures { (front : List ℕ) → Weighs result (bits_of_variables (of_names front proc.now)) }
{
    let outs = params_bits(proc.outs.as_slice());
    let locals = locals_bits(proc.locals.as_slice());
    params_bits(proc.params.as_slice()).plus(outs.plus(locals))
}

/// The number at this place, or 0 behind the last.
fn count_at(counts: &[usize], at: usize) -> usize
    ensures { result ≡ get_or counts.now at 0 }
{
    match counts.get(at) {
        Some(count) => *count,
        None => 0,
    }
}

/// The sums of each of these statements of the procedure at a place, where a plain program has all of them.
fn statement_list(
    alloc: Global,
    said: &Said<'_>,
    actions: &[ActionSums],
    place: usize,
    proc: &Proc,
    places: &[Place<'_>],
    counts: &[usize],
) -> Result<List<StatementSums>, Memory>
    requires said { IsSaid said.now }
    requires actions { AllZip (OfAction said.now.program.now) said.now.program.now.actions actions.now }
    requires proc { slice_get said.now.program.now.procs place ≡ Some proc.now }
    requires small { sizes_of proc.now.body < 2 ^ 32 }
    requires places { ArePlaces proc.now.body places.now }
    requires plain { (number : ℕ) (stmt : Statement) → slice_get (statements_of proc.now.body) number ≡ Some stmt → is_skipped stmt ≡ false }
    requires few { length places.now < 2 ^ 32 }
    requires counts { (number : ℕ) → get_or counts.now number 0 ≡ length (held_before said.now.program.now proc.now number) }
    ensures { IfOk result (AreThere said.now.program.now said.now.outline.now place proc.now (sizes_of proc.now.body)) }
{
    let mut all = List::new(alloc);
    for (number, there) in places.iter().enumerate() {
        let items = count_at(counts, number);
        let at = number as u32;
        let sums = statement_sums(
            said, actions, place, proc, at, there.stmt, there.next, items,
        );
        all.push(sums)?;
    }
    Ok(all)
}

/// The sums of each statement of the root with this number.
fn root_statements(
    alloc: Global,
    src: &Layered,
    said: &Said<'_>,
    actions: &[ActionSums],
    number: u32,
    proc: &Proc,
) -> Result<List<StatementSums>, Memory>
    requires yields { Keeps yield_rules src.now }
    requires of { IsOf src.now said.now.outline.now said.now }
    requires said { IsSaid said.now }
    requires actions { AllZip (OfAction said.now.program.now) said.now.program.now.actions actions.now }
    requires proc { slice_get said.now.program.now.procs number ≡ Some proc.now }
    requires root { is_root proc.now ≡ true }
    ensures { IfOk result (AreThere said.now.program.now said.now.outline.now number proc.now (sizes_of proc.now.body)) }
{
    let places = places_of(alloc, &proc.body)?;
    let counts = held_counts(alloc, src, number)?;
    let all = statement_list(
        alloc,
        said,
        actions,
        number as usize,
        proc,
        places.as_slice(),
        counts.as_slice(),
    )?;
    Ok(all)
}

/// Whether a procedure refines no action.
fn is_root(proc: &Proc) -> bool
    ensures { result ≡ is_root proc.now }
{
    proc.refines.is_none()
}

/// The sums of the procedure with this number.
fn proc_sums(
    alloc: Global,
    src: &Layered,
    said: &Said<'_>,
    actions: &[ActionSums],
    number: u32,
    proc: &Proc,
) -> Result<ProcSums, Memory>
    requires yields { Keeps yield_rules src.now }
    requires of { IsOf src.now said.now.outline.now said.now }
    requires said { IsSaid said.now }
    requires actions { AllZip (OfAction said.now.program.now) said.now.program.now.actions actions.now }
    requires proc { slice_get said.now.program.now.procs number ≡ Some proc.now }
    ensures { IfOk result (OfProc said.now.program.now said.now.outline.now number proc.now) }
{
    let frame = frame_bits(proc);
    if is_root(proc) {
        let statements = root_statements(alloc, src, said, actions, number, proc)?;
        return Ok(ProcSums { frame, statements });
    }
    Ok(ProcSums {
        frame,
        statements: List::new(alloc),
    })
}

/// The sums of all procedures, in their order.
pub(crate) fn all_procs(
    alloc: Global,
    src: &Layered,
    said: &Said<'_>,
    actions: &[ActionSums],
) -> Result<List<ProcSums>, Memory>
    requires yields { Keeps yield_rules src.now }
    requires of { IsOf src.now said.now.outline.now said.now }
    requires said { IsSaid said.now }
    requires actions { AllZip (OfAction said.now.program.now) said.now.program.now.actions actions.now }
    ensures { IfOk result (AreProcs said.now.program.now said.now.outline.now (length said.now.program.now.procs)) }
{
    let procs = said.program.procs.as_slice();
    let mut all = List::new(alloc);
    for (number, proc) in procs.iter().enumerate() {
        let sums = proc_sums(alloc, src, said, actions, number as u32, proc)?;
        all.push(sums)?;
    }
    Ok(all)
}
