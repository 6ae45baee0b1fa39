// All lists of values, tried one after the other.
ghost use Rattle.std.specs.Prelude.{◌≡◌, ◌<◌, ◌^◌, false, length, List, All, IsTrue, IfOk, IfSome, IfNone};
ghost use Rattle.civl_bits.specs.declared.value.Value.{Value};
ghost use Rattle.civl_firing.specs.values.Values.{HaveSorts, is_sort, is_true};
ghost use Rattle.civl_terms.specs.Graphs.{listed, value_at};
ghost use Rattle.civl_verdicts.specs.decisions.Numbered.{bits_together};

use crate::decisions::memory::Memory;
use crate::decisions::numbering::values_numbered;
use civl_bits::Value as Given;
use civl_firing::values::is_true;
use civl_terms::{Id, Terms, value};
use civl_tree::{List, Sort};
use std::alloc::Global;

/// Whether a bool is true at these values.
fn is_true_at(alloc: Global, terms: &Terms, id: Id, values: &List<Given>) -> Result<bool, Memory>
    requires { id < length terms.now }
    ensures { IfOk result (λ truth. truth ≡ is_true (value_at (listed values.now) terms.now id)) }
{
    let truth = value(alloc, terms, id, values)?;
    Ok(is_true(truth))
}

/// The first values, in the order of their numbers, at which a bool is true. There are so many lists of values.
pub(crate) fn first_true(
    alloc: Global,
    terms: &Terms,
    id: Id,
    sorts: &[Sort],
    count: u32,
) -> Result<Option<List<Given>>, Memory>
    requires within { id < length terms.now }
    requires limits { All (λ s. IsTrue (is_sort s)) sorts.now }
    requires count { count ≡ 2 ^ bits_together sorts.now }
    ensures some { IfOk result (λ found. IfSome found (λ values. HaveSorts values sorts.now × IsTrue (is_true (value_at (listed values) terms.now id)))) }
    ensures none { IfOk result (λ found. IfNone found ((values : List Value) → HaveSorts values sorts.now → is_true (value_at (listed values) terms.now id) ≡ false)) }
{
    for number in 0..count {
        let values = values_numbered(alloc, sorts, number)?;
        if is_true_at(alloc, terms, id, &values)? {
            return Ok(Some(values));
        }
    }
    Ok(None)
}
