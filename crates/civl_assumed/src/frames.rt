//! The values of frames, which a condition's values give one behind the other: those of a procedure's parameters, outputs and locals.
ghost use Rattle.std.specs.Prelude.{ℕ, ◌≡◌, drop, take};
ghost use Rattle.civl_conditions.specs.Targets.{frame_size};

use civl_bits::Value;
use civl_meaning::slices::{behind, first};
use civl_tree::Proc;

/// The values before these, which are the last ones.
fn before<'a>(values: &'a [Value], rest: &[Value]) -> &'a [Value]
    ensures { (count : ℕ) → rest.now ≡ drop count values.now → result.now ≡ take count values.now }
{
    first(values, values.len().saturating_sub(rest.len()))
}

/// The values behind those of a procedure's frame, which these begin with.
pub fn behind_frame<'a>(proc: &Proc, values: &'a [Value]) -> &'a [Value]
    ensures { result.now ≡ drop (frame_size proc.now) values.now }
{
    let outs = behind(values, proc.params.len());
    behind(behind(outs, proc.outs.len()), proc.locals.len())
}

/// The values of a procedure's frame, which these begin with; all of them where they are fewer.
pub fn frame_values<'a>(proc: &Proc, values: &'a [Value]) -> &'a [Value]
    ensures { result.now ≡ take (frame_size proc.now) values.now }
{
    before(values, behind_frame(proc, values))
}
