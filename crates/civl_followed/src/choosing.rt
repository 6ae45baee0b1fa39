// The choices of the action that follows a block.
ghost use Rattle.std.specs.Prelude.{ℕ, ◌≡◌, ◌+◌, ◌<◌, ◌^◌, true, false, List, drop, Contains, IfOk, OnOk};
ghost use Rattle.civl_bits.specs.declared.value.Value.{Value as Given};
ghost use Rattle.civl_firing.specs.declared.store.Store.{Store as Kept};
ghost use Rattle.civl_tree.specs.declared.stmt.Stmt.{out-Stmt};
ghost use Rattle.civl_reduction.specs.blocks.Blocks.{layer_at_yield};
ghost use Rattle.civl_reduction.specs.simulation.Refined.{with_values};
ghost use Rattle.civl_reduction.specs.staged.Stops.{StopsAt};
ghost use Rattle.civl_shadows.specs.Notes.{noted, progress_of};
ghost use Rattle.civl_meaning.specs.Remaining.{rest_of};
ghost use Rattle.civl_followed.specs.inner.Along.{IsChosenOf};

use crate::acting::{Done, does};
use civl_bits::Value;
use civl_meaning::remaining::Numbered;
use civl_shadows::notes::{Noting, Progress, glides, is_yield, note_values};
use civl_tree::{List, Memory, Proc, Program};
use std::alloc::Global;

/// The values of the expressions behind `with`, in a frame with these locals, where the globals have these values.
pub fn with_values(
    alloc: Global,
    program: &Program,
    proc: &Proc,
    locals: &[Value],
    values: &[Value],
) -> Result<List<Value>, Memory>
    ensures { IfOk result (λ vs. vs ≡ with_values program.now proc.now (record { values = values.now }) locals.now) }
{
    match &proc.refines {
        None => Ok(List::new(alloc)),
        Some(refines) => {
            let exprs = refines.with.as_slice();
            note_values(alloc, program, proc, locals, values, exprs)
        }
    }
}

/// Puts the values behind `with` at a yield or a yield loop behind others.
fn push_here(
    alloc: Global,
    noting: &Noting<'_>,
    item: &Numbered<'_>,
    progress: &Progress,
    offered: &mut Vec<List<Value>>,
) -> Result<(), Memory>
    ensures here { OnOk result (layer_at_yield (out-Stmt item.now.stmt.now) false ≡ true → Contains offered.new.items (with_values noting.now.program.now noting.now.proc.now (record { values = progress.now.values.items }) noting.now.locals.now)) }
    ensures kept { OnOk result ((others : List Given) → Contains offered.old.items others → Contains offered.new.items others) }
{
    if !is_yield(item.stmt) {
        return Ok(());
    }
    let values = progress.values.as_slice();
    let found = with_values(alloc, noting.program, noting.proc, noting.locals, values)?;
    offered.push(found)?;
    Ok(())
}

/// Puts the values behind `with` at the yields that are passed before the next statement of a plain program, and at a yield loop
/// before which these end, behind others.
pub fn push_stops(
    alloc: Global,
    noting: &Noting<'_>,
    rest: &[Numbered<'_>],
    from: usize,
    progress: &mut Progress,
    offered: &mut Vec<List<Value>>,
) -> Result<(), Memory>
    ensures { OnOk result ((x : Kept) → StopsAt (noted noting.now) (rest_of (drop from rest.now)) (progress_of noting.now progress.old) x → Contains offered.new.items (with_values noting.now.program.now noting.now.proc.now x noting.now.locals.now)) }
{
    for at in from..rest.len() {
        let item = &rest[at];
        push_here(alloc, noting, item, progress, offered)?;
        if !glides(noting, item.stmt, progress) {
            return Ok(());
        }
    }
    Ok(())
}

/// A copy of some values.
fn copied(alloc: Global, values: &[Value]) -> Result<List<Value>, Memory>
    ensures { IfOk result (λ r. r ≡ values.now) }
{
    let values = Vec::from_slice(alloc, values)?;
    Ok(List::from_vec(values))
}

/// The choices with which the refined action does what a block did: the first that were offered with which it does so, and else
/// the values behind `with` at the block's end.
pub fn choose(
    alloc: Global,
    done: &Done<'_>,
    offered: &[List<Value>],
) -> Result<List<Value>, Memory>
    requires { done.now.layer + 1 < 2 ^ 32 }
    ensures { IfOk result (λ vs. (procedure place : ℕ) → IsChosenOf done.now.program.now done.now.layer (done.now.proc.now, record { procedure = procedure; place = place; locals = done.now.locals.now }) done.now.before.now offered.now done.now.after.now vs) }
{
    for at in 0..offered.len() {
        let chosen = offered[at].as_slice();
        if does(alloc, done, chosen)? {
            let chosen = copied(alloc, chosen)?;
            return Ok(chosen);
        }
    }
    let values = done.after.values.as_slice();
    let found = with_values(alloc, done.program, done.proc, done.locals, values)?;
    Ok(found)
}
