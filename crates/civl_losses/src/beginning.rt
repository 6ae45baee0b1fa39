// The beginning of a path, as the values of a condition give it.
ghost use Rattle.std.specs.Prelude.{◌≡◌, ◌++◌, ◌<◌, ◌^◌, IfOk};
ghost use Rattle.civl_tree.specs.Numbering.{sizes_of};
ghost use Rattle.civl_firing.specs.Scope.{zeros_of_params, zeros_of_locals};
ghost use Rattle.civl_conditions.specs.Values.{begun, flag_at};
ghost use Rattle.civl_losses.specs.Beginnings.{begun_from};
ghost use Rattle.civl_losses.specs.inner.Given.{frame_locals, behind_frame, entry_begun, yield_begun, rank_begun};

use crate::choices::choices_of_calls;
use civl_assumed::stores::{Among, behind_globals, store_of};
use civl_bits::Value;
use civl_firing::Store;
use civl_firing::sorts::{push_locals, push_params};
use civl_firing::values::is_true;
use civl_layers::{Cut, CutKind};
use civl_meaning::outputs;
use civl_meaning::slices::{behind, first};
use civl_traces::Chosen;
use civl_tree::{List, Memory, Proc, Program};
use std::alloc::Global;

/// The values at the beginning of a path: the present, those at the beginning of its block, which are called old, and those for the
/// choices of its calls.
#[derive(Drop)]
pub struct Beginning {
    pub store: Store,
    pub locals: List<Value>,
    pub done: bool,
    pub old: Store,
    pub old_outs: List<Value>,
    pub old_done: bool,
    pub chosen: List<Chosen>,
}

/// A condition's step, its procedure, and the cut from which its path begins.
#[derive(Clone, Copy)]
pub(crate) struct From<'a> {
    pub program: &'a Program,
    pub step: u32,
    pub proc: &'a Proc,
    pub cut: Cut,
}

/// The first value is the bool true.
fn flag(values: &[Value]) -> bool
    ensures { result ≡ flag_at values.now 0 }
{
    if values.is_empty() {
        return false;
    }
    is_true(values[0])
}

/// Three lists, one behind the other.
fn joined(
    alloc: Global,
    before: &[Value],
    middle: &[Value],
    after: &[Value],
) -> Result<List<Value>, Memory>
    ensures { IfOk result (λ all. all ≡ before.now ++ (middle.now ++ after.now)) }
{
    let mut all = Vec::from_slice(alloc, before)?;
    all.extend_from_slice(middle)?;
    all.extend_from_slice(after)?;
    Ok(List::from_vec(all))
}

/// A list of its own.
pub(crate) fn copied(alloc: Global, values: &[Value]) -> Result<List<Value>, Memory>
    ensures { IfOk result (λ all. all ≡ values.now) }
{
    let all = Vec::from_slice(alloc, values)?;
    Ok(List::from_vec(all))
}

/// The locals of a procedure that is entered with these parameters.
fn entered(alloc: Global, proc: &Proc, params: &[Value]) -> Result<List<Value>, Memory>
    ensures { IfOk result (λ all. all ≡ params.now ++ (zeros_of_params proc.now.outs ++ zeros_of_locals proc.now.locals)) }
{
    let mut all = Vec::from_slice(alloc, params)?;
    push_params(&mut all, proc.outs.as_slice())?;
    push_locals(&mut all, proc.locals.as_slice())?;
    Ok(List::from_vec(all))
}

/// From the entry of the procedure.
fn at_entry(alloc: Global, from: &From<'_>, values: &[Value]) -> Result<Beginning, Memory>
    requires { sizes_of from.now.proc.now.body < 2 ^ 32 }
    ensures { IfOk result (λ b. begun_from b ≡ entry_begun from.now.program.now from.now.step from.now.proc.now from.now.cut values.now) }
{
    let among = Among::Step(from.step);
    let rest = behind_globals(among, from.program, values);
    let count = from.proc.params.len();
    let chosen = choices_of_calls(alloc, from, behind(rest, count))?;
    let locals = entered(alloc, from.proc, first(rest, count))?;
    let old_outs = copied(alloc, outputs(from.proc, locals.as_slice()))?;
    let store = store_of(alloc, among, from.program, values)?;
    let old = store_of(alloc, among, from.program, values)?;
    Ok(Beginning {
        store,
        locals,
        done: false,
        old,
        old_outs,
        old_done: false,
        chosen,
    })
}

/// The values of a frame, and those behind them.
struct Framed<'a> {
    locals: List<Value>,
    rest: &'a [Value],
}

/// The locals of a procedure's frame, which these values begin with.
fn frame_of<'a>(alloc: Global, proc: &Proc, values: &'a [Value]) -> Result<Framed<'a>, Memory>
    ensures locals { IfOk result (λ f. f.locals ≡ frame_locals proc.now values.now) }
    ensures rest { IfOk result (λ f. f.rest.now ≡ behind_frame proc.now values.now) }
{
    let params = first(values, proc.params.len());
    let rest = behind(values, proc.params.len());
    let outs = first(rest, proc.outs.len());
    let rest = behind(rest, proc.outs.len());
    let locals = joined(alloc, params, outs, first(rest, proc.locals.len()))?;
    Ok(Framed {
        locals,
        rest: behind(rest, proc.locals.len()),
    })
}

/// From a yield or a yield loop.
fn at_yield(alloc: Global, from: &From<'_>, values: &[Value]) -> Result<Beginning, Memory>
    requires { sizes_of from.now.proc.now.body < 2 ^ 32 }
    ensures { IfOk result (λ b. begun_from b ≡ yield_begun from.now.program.now from.now.step from.now.proc.now from.now.cut values.now) }
{
    let among = Among::Step(from.step);
    let rest = behind_globals(among, from.program, values);
    let Framed { locals, rest } = frame_of(alloc, from.proc, rest)?;
    let done = flag(rest);
    let chosen = choices_of_calls(alloc, from, behind(rest, 1))?;
    let old_outs = copied(alloc, outputs(from.proc, locals.as_slice()))?;
    let store = store_of(alloc, among, from.program, values)?;
    let old = store_of(alloc, among, from.program, values)?;
    Ok(Beginning {
        store,
        locals,
        done,
        old,
        old_outs,
        old_done: done,
        chosen,
    })
}

/// From the head of a rank loop.
fn at_rank(alloc: Global, from: &From<'_>, values: &[Value]) -> Result<Beginning, Memory>
    requires { sizes_of from.now.proc.now.body < 2 ^ 32 }
    ensures { IfOk result (λ b. begun_from b ≡ rank_begun from.now.program.now from.now.step from.now.proc.now from.now.cut values.now) }
{
    let among = Among::Step(from.step);
    let olds = behind_globals(among, from.program, values);
    let rest = behind_globals(among, from.program, olds);
    let Framed { locals, rest } = frame_of(alloc, from.proc, rest)?;
    let old_outs = copied(alloc, first(rest, from.proc.outs.len()))?;
    let flags = behind(rest, from.proc.outs.len());
    let later = behind(flags, 1);
    let chosen = choices_of_calls(alloc, from, behind(later, 1))?;
    let store = store_of(alloc, among, from.program, values)?;
    let old = store_of(alloc, among, from.program, olds)?;
    Ok(Beginning {
        store,
        locals,
        done: flag(flags),
        old,
        old_outs,
        old_done: flag(later),
        chosen,
    })
}

/// The beginning of a path, as the values of its condition give it, which stand in the order of the condition's variables.
///
/// # Errors
///
/// For want of memory.
pub(crate) fn begins(alloc: Global, from: &From<'_>, values: &[Value]) -> Result<Beginning, Memory>
    requires { sizes_of from.now.proc.now.body < 2 ^ 32 }
    ensures { IfOk result (λ b. begun_from b ≡ begun from.now.program.now from.now.step from.now.proc.now from.now.cut values.now) }
{
    match from.cut.kind {
        CutKind::Entry => at_entry(alloc, from, values),
        CutKind::Yield => at_yield(alloc, from, values),
        CutKind::YieldLoop => at_yield(alloc, from, values),
        CutKind::RankLoop => at_rank(alloc, from, values),
    }
}
