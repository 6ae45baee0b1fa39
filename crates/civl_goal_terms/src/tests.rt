// Bools made of bools.
ghost use Rattle.std.specs.Prelude.{◌≡◌, ◌+◌, ◌≤◌, if◌then◌else◌, Bool, Some, IfOk, OnOk};
ghost use Rattle.civl_tree.specs.declared.expr.Sort.TheVariants.{Bool as Truth};
ghost use Rattle.civl_terms.specs.Graphs.{sort_at};
ghost use Rattle.civl_terms.specs.Building.{Grows};
ghost use Rattle.civl_terms.specs.Weights.{graph_weight};
ghost use Rattle.civl_states.specs.formula_parts.Said.{Env, IsTest};

use civl_moves::without;
use civl_states::formula_parts::{both, either};
use civl_terms::{Id, Memory, Terms};

/// The second test where the first is true, and else the third.
pub(crate) fn chosen(terms: &mut Terms, test: Id, a: Id, b: Id) -> Result<Id, Memory>
    requires test { sort_at terms.old test ≡ Some Truth }
    requires a { sort_at terms.old a ≡ Some Truth }
    requires b { sort_at terms.old b ≡ Some Truth }
    ensures test { IfOk result (λ id. (t f g : Env → Bool) → IsTest terms.old test t → IsTest terms.old a f → IsTest terms.old b g → IsTest terms.new id (λ env. if t env then f env else g env)) }
    ensures sorted { IfOk result (λ id. sort_at terms.new id ≡ Some Truth) }
    ensures grows { Grows terms.old terms.new }
    ensures weighs { OnOk result (graph_weight terms.new ≤ graph_weight terms.old + 4) }
{
    let first = both(terms, test, a)?;
    let second = without(terms, b, test)?;
    let id = either(terms, first, second)?;
    Ok(id)
}
