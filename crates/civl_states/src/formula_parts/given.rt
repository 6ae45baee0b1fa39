// The variables of a formula.
ghost use Rattle.std.specs.Prelude.{◌+◌, ◌≤◌, ◌<◌, ◌^◌, length, All, IsTrue, IfOk, OnOk, [], ◌∷◌};
ghost use Rattle.civl_firing.specs.values.Values.{is_sort};
ghost use Rattle.civl_terms.specs.Building.{Lengthens};
ghost use Rattle.civl_terms.specs.Weights.{graph_weight};
ghost use Rattle.civl_states.specs.formula_parts.Lists.{AreSaid};
ghost use Rattle.civl_states.specs.formula_parts.Given.{given, sorts_from, bits_of_sorts, AreVariablesOf};

use civl_terms::{Id, Memory, Terms};
use civl_tree::{List, Sort};
use std::alloc::Global;

/// The variable with this number among a formula's.
fn variable(terms: &mut Terms, sorts: &[Sort], number: u32) -> Result<Id, Memory>
    requires within { number < length sorts.now }
    requires limits { All (λ s. IsTrue (is_sort s)) sorts.now }
    requires variables { AreVariablesOf terms.old sorts.now }
    ensures said { IfOk result (λ id. AreSaid terms.new (id ∷ []) (sorts_from sorts.now number 1) (λ env. given env number 1)) }
    ensures variables { AreVariablesOf terms.new sorts.now }
    ensures lengthens { Lengthens terms.old terms.new }
    ensures weighs { OnOk result (graph_weight terms.new ≤ graph_weight terms.old + bits_of_sorts (sorts_from sorts.now number 1)) }
{
    let id = terms.variable(number, sorts[number as usize])?;
    Ok(id)
}

/// So many of a formula's variables, from this one on. The sorts are those of all its variables, in their order.
///
/// The graph's weight rises by at most their bits.
///
/// # Errors
///
/// For want of memory; the nodes before stay.
pub fn variables(
    alloc: Global,
    terms: &mut Terms,
    sorts: &[Sort],
    first: u32,
    count: u32,
) -> Result<List<Id>, Memory>
    requires within { first + count ≤ length sorts.now }
    requires small { first + count < 2 ^ 32 }
    requires limits { All (λ s. IsTrue (is_sort s)) sorts.now }
    requires variables { AreVariablesOf terms.old sorts.now }
    ensures said { IfOk result (λ ids. AreSaid terms.new ids (sorts_from sorts.now first count) (λ env. given env first count)) }
    ensures variables { AreVariablesOf terms.new sorts.now }
    ensures lengthens { Lengthens terms.old terms.new }
    ensures weighs { OnOk result (graph_weight terms.new ≤ graph_weight terms.old + bits_of_sorts (sorts_from sorts.now first count)) }
{
    let mut ids = Vec::new(alloc);
    for at in 0..count {
        let id = variable(terms, sorts, first + at)?;
        ids.push(id)?;
    }
    Ok(List::from_vec(ids))
}
