// The values that may be others.
ghost use Rattle.std.specs.Prelude.{◌≡◌, ◌++◌, ◌∷◌, [], None, Some, is_some, if◌then◌else◌, IfOk};
ghost use Rattle.std.specs.Option.{unwrap_or};
ghost use Rattle.civl_conditions.specs.Violated.{violated};
ghost use Rattle.civl_linear.specs.Cuts.{all_held};
ghost use Rattle.civl_clashes.specs.Told.{violation};
ghost use Rattle.civl_losses.specs.Losses.{loss};
ghost use Rattle.civl_losses.specs.Laws.{LossesAreTold};
ghost use Rattle.civl_losses.specs.Stories.{IsAtStep};
ghost use Rattle.civl_marks.specs.Marks.{marks, tried};

use crate::others::other_value;
use civl_bits::Value;
use civl_clashes::violation;
use civl_conditions::Condition;
use civl_layers::{Held, Layered};
use civl_losses::laws::losses_are_told;
use civl_losses::loss_of;
use civl_tree::Memory;
use std::alloc::Global;

/// Whether something is lost on the path of a condition by these values. What is lost is told exactly where they violate it.
fn is_lost(
    alloc: Global,
    src: &Layered,
    held: &Held,
    condition: &Condition,
    values: &[Value],
) -> Result<bool, Memory>
    requires step { IsAtStep src.now condition.now }
    requires held { held.now.cuts ≡ all_held src.now }
    ensures lost { IfOk result (λ is. is ≡ is_some (loss src.now condition.now values.now)) }
    ensures told { LossesAreTold }
{
    losses_are_told();
    let loss = loss_of(alloc, src, held, condition, values)?;
    Ok(loss.is_some())
}

/// Whether a violation of a condition is told of these values.
fn is_clashing(
    alloc: Global,
    src: &Layered,
    held: &Held,
    condition: &Condition,
    values: &[Value],
) -> Result<bool, Memory>
    requires held { held.now.cuts ≡ all_held src.now }
    ensures { IfOk result (λ is. is ≡ is_some (violation src.now condition.now values.now)) }
{
    let violation = violation(alloc, src, held, condition, values)?;
    Ok(violation.is_some())
}

/// Whether values, one for each variable of a condition in their order, violate it.
fn is_violated(
    alloc: Global,
    src: &Layered,
    held: &Held,
    condition: &Condition,
    values: &[Value],
) -> Result<bool, Memory>
    requires step { IsAtStep src.now condition.now }
    requires held { held.now.cuts ≡ all_held src.now }
    ensures { IfOk result (λ is. is ≡ violated src.now condition.now values.now) }
{
    let clashing = is_clashing(alloc, src, held, condition, values)?;
    let lost = is_lost(alloc, src, held, condition, values)?;
    Ok(clashing || lost)
}

/// These values, another one, and those.
fn with_other(
    alloc: Global,
    before: &[Value],
    other: &Value,
    behind: &[Value],
) -> Result<Vec<Value>, Memory>
    ensures { IfOk result (λ all. all.items ≡ before.now ++ other.now ∷ behind.now) }
{
    let mut all = before.to_vec(alloc)?;
    all.push(*other)?;
    all.extend_from_slice(behind)?;
    Ok(all)
}

/// Whether a condition is violated with another value between those before and those behind.
fn is_with(
    alloc: Global,
    src: &Layered,
    held: &Held,
    condition: &Condition,
    before: &[Value],
    other: &Value,
    behind: &[Value],
) -> Result<bool, Memory>
    requires step { IsAtStep src.now condition.now }
    requires held { held.now.cuts ≡ all_held src.now }
    ensures { IfOk result (λ is. is ≡ violated src.now condition.now (before.now ++ other.now ∷ behind.now)) }
{
    let all = with_other(alloc, before, other, behind)?;
    is_violated(alloc, src, held, condition, all.as_slice())
}

/// A value, if so.
fn when(is: bool, value: Value) -> Option<Value>
    ensures { result ≡ (if is then Some value else None) }
{
    if is { Some(value) } else { None }
}

/// Another value than the given one, where a condition is violated with it between the values before and those behind.
fn tried(
    alloc: Global,
    src: &Layered,
    held: &Held,
    condition: &Condition,
    before: &[Value],
    given: &Value,
    behind: &[Value],
) -> Result<Option<Value>, Memory>
    requires step { IsAtStep src.now condition.now }
    requires held { held.now.cuts ≡ all_held src.now }
    ensures { IfOk result (λ mark. mark ≡ tried (violated src.now condition.now) before.now given.now behind.now) }
{
    let other = other_value(*given);
    let is = is_with(alloc, src, held, condition, before, &other, behind)?;
    Ok(when(is, other))
}

/// The value that is kept: the other one, if any.
fn kept_value(mark: &Option<Value>, given: &Value) -> Value
    ensures { result ≡ unwrap_or mark.now given.now }
{
    match mark {
        Some(other) => *other,
        None => *given,
    }
}

/// Of each value of a condition, in the order of its variables, the other one with which it is violated too; None where it isn't. Each
/// stands beside the ones before it, as they were kept, and the given ones behind it.
///
/// # Errors
///
/// For want of memory.
pub fn marks_of(
    alloc: Global,
    src: &Layered,
    held: &Held,
    condition: &Condition,
    values: &[Value],
) -> Result<Vec<Option<Value>>, Memory>
    requires step { IsAtStep src.now condition.now }
    requires held { held.now.cuts ≡ all_held src.now }
    ensures { IfOk result (λ found. found.items ≡ marks src.now condition.now values.now) }
{
    let mut found = Vec::new(alloc);
    let mut kept = Vec::new(alloc);
    for at in 0..values.len() {
        let (given, behind) = (&values[at], &values[at + 1..]);
        let mark = tried(alloc, src, held, condition, kept.as_slice(), given, behind)?;
        kept.push(kept_value(&mark, given))?;
        found.push(mark)?;
    }
    Ok(found)
}
