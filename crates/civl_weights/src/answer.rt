// The conditions of a layered program, where none weighs too much.
ghost use Rattle.std.specs.Prelude.{◌≡◌, None, IfOk, IfErr, nat_lt};
ghost use Rattle.std.specs.List.{find};
ghost use Rattle.civl_linear.specs.Cuts.{all_held};
ghost use Rattle.civl_conditions.specs.Listed.{conditions};
ghost use Rattle.civl_conditions.specs.Weights.{weight_limit, weight, heavy};
ghost use Rattle.civl_weights.specs.Heavy.{IsHeavy, IsInitialWeight, IsInitialHeavy};
ghost use Rattle.civl_weights.specs.sums.Tables.{OfProgram};

use crate::kinds::{step_of, weigh};
use crate::sums::steps::{first_sums, sums_at};
use crate::sums::tables::{Tables, work_out};
use civl_conditions::{Condition, listed};
use civl_layers::{Held, Layered};
use civl_tree::{List, Memory, beside, both};
use civl_weighing::weight::Weight;
use std::alloc::Global;

/// Why the conditions of a program aren't listed: a formula weighs too much, that of this condition, or of the search for an
/// initial store where there is none; or memory is wanting.
#[derive(Clone, Copy, Debug, PartialEq, Eq)]
pub enum TooMuch {
    Weight(Option<Condition>),
    Memory,
}

/// The first of these conditions that weighs too much.
fn first_heavy(
    alloc: Global,
    src: &Layered,
    tables: &Tables,
    list: &[Condition],
) -> Result<Option<Condition>, Memory>
    requires { OfProgram src.now tables.now }
    ensures { IfOk result (λ found. found ≡ find (λ c. nat_lt weight_limit (weight src.now c)) list.now) }
{
    let mut step = first_sums(alloc, src)?;
    for condition in list {
        step = sums_at(alloc, src, step, step_of(condition))?;
        let weight = weigh(alloc, src, tables, &step, condition)?;
        if weight.is_heavy() {
            return Ok(Some(*condition));
        }
    }
    Ok(None)
}

/// The weight of the search for an initial store, with its variables.
pub fn weigh_initial(tables: &Tables) -> Weight
    ensures { IsInitialWeight tables.now result }
{
    tables.bits.plus(tables.initial)
}

/// Whether the search for an initial store weighs too much.
fn is_initial_heavy(tables: &Tables) -> bool
    ensures { IsInitialHeavy tables.now result }
{
    weigh_initial(tables).is_heavy()
}

/// The first formula that weighs too much, where these are the conditions.
fn first_formula(
    alloc: Global,
    src: &Layered,
    tables: &Tables,
    list: &[Condition],
) -> Result<Option<Option<Condition>>, Memory>
    requires tables { OfProgram src.now tables.now }
    requires list { list.now ≡ conditions src.now }
    ensures { IfOk result (λ found. found ≡ heavy src.now) }
{
    if is_initial_heavy(tables) {
        return Ok(Some(None));
    }
    match first_heavy(alloc, src, tables, list)? {
        Some(condition) => Ok(Some(Some(condition))),
        None => Ok(None),
    }
}

/// The first formula that weighs too much, and the list of the conditions.
fn weighed(
    alloc: Global,
    src: &Layered,
    held: &Held,
) -> Result<(Option<Option<Condition>>, List<Condition>), Memory>
    requires { held.now.cuts ≡ all_held src.now }
    ensures heavy { IfOk result (λ found. found.0 ≡ heavy src.now) }
    ensures listed { IfOk result (λ found. found.1 ≡ conditions src.now) }
{
    let (tables, list) = both(work_out(alloc, src, held), listed(alloc, src))?;
    let found = first_formula(alloc, src, &tables, list.as_slice());
    let (list, found) = beside(list, found)?;
    Ok((found, list))
}

/// All conditions of a layered program in their order, where no formula weighs more than 400,000. `held` has what is held at
/// each cut.
///
/// # Errors
///
/// `Weight` comes exactly where a formula weighs more, and has the first: that of the search for an initial store, which is
/// `None`, or else the first such condition in the order of the list. `Memory` comes where memory is wanting.
pub fn conditions(alloc: Global, src: &Layered, held: &Held) -> Result<List<Condition>, TooMuch>
    requires { held.now.cuts ≡ all_held src.now }
    ensures listed { IfOk result (λ list. list ≡ conditions src.now) }
    ensures light { IfOk result (λ list. heavy src.now ≡ None) }
    ensures heavy { IfErr result (IsHeavy (heavy src.now)) }
{
    match weighed(alloc, src, held) {
        Ok((None, list)) => Ok(list),
        Ok((Some(found), _list)) => Err(TooMuch::Weight(found)),
        Err(Memory) => Err(TooMuch::Memory),
    }
}
