// Whether values are the same.
ghost use Rattle.std.specs.Prelude.{◌≡◌, ◌+◌, ◌≤◌, ◌&&◌, Bool, length, Some, IsSome, IfOk, OnOk};
ghost use Rattle.civl_bits.specs.declared.value.Value.{Value};
ghost use Rattle.civl_bits.specs.Value.{same_value};
ghost use Rattle.civl_tree.specs.declared.expr.Sort.{Sort};
ghost use Rattle.civl_tree.specs.declared.expr.Sort.TheVariants.{Bool as Truth};
ghost use Rattle.civl_firing.specs.values.Weights.{bits_in};
ghost use Rattle.civl_terms.specs.Graphs.{sort_at};
ghost use Rattle.civl_terms.specs.Building.{Grows};
ghost use Rattle.civl_terms.specs.Weights.{graph_weight};
ghost use Rattle.civl_actions.specs.Actions.{values_at};
ghost use Rattle.civl_conditions.specs.Values.{same_values};
ghost use Rattle.civl_states.specs.formula_parts.Said.{Env, IsTest, IsSaid};
ghost use Rattle.civl_states.specs.formula_parts.Lists.{AreAlike, bits_at};

use crate::formula_parts::tests::both;
use civl_bits::Value as Constant;
use civl_terms::{Id, Memory, Terms};
use civl_tree::Two;

/// Whether two terms of one sort have the same value. The graph's weight rises by at most the sort's bits.
///
/// # Errors
///
/// For want of memory; the nodes before stay.
#[tactic(auto, using(crate::proofs::formula_parts::Saying::saying))]
pub fn same(terms: &mut Terms, a: Id, b: Id) -> Result<Id, Memory>
    requires sort { IsSome (sort_at terms.old a) }
    requires alike { sort_at terms.old b ≡ sort_at terms.old a }
    ensures test { IfOk result (λ id. (s : Sort) (f g : Env → Value) → IsSaid terms.old a s f → IsSaid terms.old b s g → IsTest terms.new id (λ env. same_value (f env) (g env))) }
    ensures sorted { IfOk result (λ id. sort_at terms.new id ≡ Some Truth) }
    ensures grows { Grows terms.old terms.new }
    ensures weighs { OnOk result (graph_weight terms.new ≤ graph_weight terms.old + bits_in (sort_at terms.old a)) }
{
    let id = terms.two(Two::Eq, a, b)?;
    Ok(id)
}

/// Whether a test is true and two terms of one sort have the same value.
#[tactic(auto, using(crate::proofs::formula_parts::Saying::saying))]
fn and_same(terms: &mut Terms, test: Id, a: Id, b: Id) -> Result<Id, Memory>
    requires test { sort_at terms.old test ≡ Some Truth }
    requires sort { IsSome (sort_at terms.old a) }
    requires alike { sort_at terms.old b ≡ sort_at terms.old a }
    ensures test { IfOk result (λ id. (s : Sort) (h : Env → Bool) (f g : Env → Value) → IsTest terms.old test h → IsSaid terms.old a s f → IsSaid terms.old b s g → IsTest terms.new id (λ env. h env && same_value (f env) (g env))) }
    ensures sorted { IfOk result (λ id. sort_at terms.new id ≡ Some Truth) }
    ensures grows { Grows terms.old terms.new }
    ensures weighs { OnOk result (graph_weight terms.new ≤ graph_weight terms.old + bits_in (sort_at terms.old a) + 1) }
{
    let equal = same(terms, a, b)?;
    let id = both(terms, test, equal)?;
    Ok(id)
}

/// Whether a test is true and terms of the same sorts have the same values, one by one.
#[tactic(auto, using(crate::proofs::formula_parts::Saying::saying))]
fn and_all_same(terms: &mut Terms, test: Id, xs: &[Id], ys: &[Id]) -> Result<Id, Memory>
    requires test { sort_at terms.old test ≡ Some Truth }
    requires alike { AreAlike terms.old xs.now ys.now }
    ensures test { IfOk result (λ id. (h : Env → Bool) → IsTest terms.old test h → IsTest terms.new id (λ env. h env && same_values (values_at env terms.old xs.now) (values_at env terms.old ys.now))) }
    ensures sorted { IfOk result (λ id. sort_at terms.new id ≡ Some Truth) }
    ensures grows { Grows terms.old terms.new }
    ensures weighs { OnOk result (graph_weight terms.new ≤ graph_weight terms.old + bits_at terms.old xs.now + length xs.now) }
{
    let mut id = test;
    for (at, x) in xs.iter().enumerate() {
        id = and_same(terms, id, *x, ys[at])?;
    }
    Ok(id)
}

/// Whether terms of the same sorts have the same values, one by one. The graph's weight rises by at most the bits of the
/// sorts and their number.
///
/// # Errors
///
/// For want of memory; the nodes before stay.
#[tactic(auto, using(crate::proofs::formula_parts::Saying::saying))]
pub fn all_same(terms: &mut Terms, xs: &[Id], ys: &[Id]) -> Result<Id, Memory>
    requires { AreAlike terms.old xs.now ys.now }
    ensures test { IfOk result (λ id. IsTest terms.new id (λ env. same_values (values_at env terms.old xs.now) (values_at env terms.old ys.now))) }
    ensures sorted { IfOk result (λ id. sort_at terms.new id ≡ Some Truth) }
    ensures grows { Grows terms.old terms.new }
    ensures weighs { OnOk result (graph_weight terms.new ≤ graph_weight terms.old + bits_at terms.old xs.now + length xs.now) }
{
    let truth = terms.constant(Constant::Bool(true))?;
    let id = and_all_same(terms, truth, xs, ys)?;
    Ok(id)
}
