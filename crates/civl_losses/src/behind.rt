// The values behind those of a path's beginning, where another thread's frame stands.
ghost use Rattle.std.specs.Prelude.{◌≡◌, ◌<◌, ◌^◌, drop, map, IfOk};
ghost use Rattle.civl_tree.specs.Numbering.{sizes_of};
ghost use Rattle.civl_conditions.specs.Values.{choices_count, layout};
ghost use Rattle.civl_losses.specs.inner.Given.{calls_of, behind_frame, behind_calls, behind_entry, behind_yield, behind_rank};

use crate::beginning::From;
use crate::choices::count_at;
use civl_assumed::stores::{Among, behind_globals};
use civl_bits::Value;
use civl_conditions::paths::met_from;
use civl_layers::CutKind;
use civl_meaning::slices::behind;
use civl_names::walks::statements;
use civl_tree::{Memory, Proc, Program, Stmt};
use std::alloc::Global;

/// The values that are left to read.
#[derive(Clone, Copy)]
struct Rest<'a> {
    values: &'a [Value],
}

/// The values behind the choices of the statements with these numbers, which stand one behind the other.
fn behind_numbers<'a>(
    program: &Program,
    layer: u32,
    flat: &[&Stmt],
    numbers: &[u32],
    values: &'a [Value],
) -> &'a [Value]
    ensures { result.now ≡ drop (choices_count (calls_of program.now layer (map (λ s. s.now) flat.now) numbers.now)) values.now }
{
    let mut rest = Rest { values };
    for number in numbers {
        let count = count_at(program, layer, flat, *number as usize);
        rest = Rest {
            values: behind(rest.values, count),
        };
    }
    rest.values
}

/// The values behind the choices of the calls that some path from a cut passes.
fn behind_calls<'a>(
    alloc: Global,
    from: &From<'_>,
    values: &'a [Value],
) -> Result<&'a [Value], Memory>
    requires { sizes_of from.now.proc.now.body < 2 ^ 32 }
    ensures { IfOk result (λ rest. rest.now ≡ behind_calls from.now.program.now from.now.step from.now.proc.now from.now.cut values.now) }
{
    let met = met_from(alloc, from.proc, from.cut)?;
    let flat = statements(alloc, &from.proc.body)?;
    Ok(behind_numbers(
        from.program,
        from.step.saturating_sub(1),
        flat.as_slice(),
        met.passed.as_slice(),
        values,
    ))
}

/// The values behind the frame with which these begin.
fn behind_frame<'a>(proc: &Proc, values: &'a [Value]) -> &'a [Value]
    ensures { result.now ≡ behind_frame proc.now values.now }
{
    let outs = behind(values, proc.params.len());
    behind(behind(outs, proc.outs.len()), proc.locals.len())
}

/// From the entry of the procedure.
fn behind_entry<'a>(
    alloc: Global,
    from: &From<'_>,
    values: &'a [Value],
) -> Result<&'a [Value], Memory>
    requires { sizes_of from.now.proc.now.body < 2 ^ 32 }
    ensures { IfOk result (λ rest. rest.now ≡ behind_entry from.now.program.now from.now.step from.now.proc.now from.now.cut values.now) }
{
    let rest = behind_globals(Among::Step(from.step), from.program, values);
    behind_calls(alloc, from, behind(rest, from.proc.params.len()))
}

/// From a yield or a yield loop.
fn behind_yield<'a>(
    alloc: Global,
    from: &From<'_>,
    values: &'a [Value],
) -> Result<&'a [Value], Memory>
    requires { sizes_of from.now.proc.now.body < 2 ^ 32 }
    ensures { IfOk result (λ rest. rest.now ≡ behind_yield from.now.program.now from.now.step from.now.proc.now from.now.cut values.now) }
{
    let rest = behind_globals(Among::Step(from.step), from.program, values);
    behind_calls(alloc, from, behind(behind_frame(from.proc, rest), 1))
}

/// From the head of a rank loop.
fn behind_rank<'a>(
    alloc: Global,
    from: &From<'_>,
    values: &'a [Value],
) -> Result<&'a [Value], Memory>
    requires { sizes_of from.now.proc.now.body < 2 ^ 32 }
    ensures { IfOk result (λ rest. rest.now ≡ behind_rank from.now.program.now from.now.step from.now.proc.now from.now.cut values.now) }
{
    let among = Among::Step(from.step);
    let olds = behind_globals(among, from.program, values);
    let rest = behind_globals(among, from.program, olds);
    let outs = behind(behind_frame(from.proc, rest), from.proc.outs.len());
    behind_calls(alloc, from, behind(behind(outs, 1), 1))
}

/// The values behind those of a path's beginning.
///
/// # Errors
///
/// For want of memory.
pub(crate) fn behind_beginning<'a>(
    alloc: Global,
    from: &From<'_>,
    values: &'a [Value],
) -> Result<&'a [Value], Memory>
    requires { sizes_of from.now.proc.now.body < 2 ^ 32 }
    ensures { IfOk result (λ rest. rest.now ≡ drop (layout from.now.program.now from.now.step from.now.proc.now from.now.cut).behind
        values.now) }
{
    match from.cut.kind {
        CutKind::Entry => behind_entry(alloc, from, values),
        CutKind::Yield => behind_yield(alloc, from, values),
        CutKind::YieldLoop => behind_yield(alloc, from, values),
        CutKind::RankLoop => behind_rank(alloc, from, values),
    }
}
