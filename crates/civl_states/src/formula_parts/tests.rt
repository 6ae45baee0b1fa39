// Bools made of bools.
ghost use Rattle.std.specs.Prelude.{◌≡◌, ◌+◌, ◌≤◌, List, not, ◌&&◌, ◌||◌, length, Bool, Some, All, IfOk, OnOk};
ghost use Rattle.civl_tree.specs.declared.expr.Sort.TheVariants.{Bool as Truth};
ghost use Rattle.civl_terms.specs.Graphs.{sort_at};
ghost use Rattle.civl_terms.specs.Building.{Grows};
ghost use Rattle.civl_terms.specs.Weights.{graph_weight};
ghost use Rattle.civl_states.specs.formula_parts.Said.{Env, IsTest, AreTests, all_true, some_true};

use civl_bits::Value;
use civl_terms::{Id, Memory, Terms};
use civl_tree::{One, Two};

/// The opposite of a test. The graph's weight rises by at most 1.
///
/// # Errors
///
/// For want of memory; the nodes before stay.
#[tactic(auto, using(crate::proofs::formula_parts::Saying::saying))]
pub fn negated(terms: &mut Terms, a: Id) -> Result<Id, Memory>
    requires { sort_at terms.old a ≡ Some Truth }
    ensures test { IfOk result (λ id. (f : Env → Bool) → IsTest terms.old a f → IsTest terms.new id (λ env. not (f env))) }
    ensures sorted { IfOk result (λ id. sort_at terms.new id ≡ Some Truth) }
    ensures grows { Grows terms.old terms.new }
    ensures weighs { OnOk result (graph_weight terms.new ≤ graph_weight terms.old + 1) }
{
    let id = terms.one(One::Not, a)?;
    Ok(id)
}

/// Whether both tests are true. The graph's weight rises by at most 1.
///
/// # Errors
///
/// For want of memory; the nodes before stay.
#[tactic(auto, using(crate::proofs::formula_parts::Saying::saying))]
pub fn both(terms: &mut Terms, a: Id, b: Id) -> Result<Id, Memory>
    requires a { sort_at terms.old a ≡ Some Truth }
    requires b { sort_at terms.old b ≡ Some Truth }
    ensures test { IfOk result (λ id. (f g : Env → Bool) → IsTest terms.old a f → IsTest terms.old b g → IsTest terms.new id (λ env. f env && g env)) }
    ensures sorted { IfOk result (λ id. sort_at terms.new id ≡ Some Truth) }
    ensures grows { Grows terms.old terms.new }
    ensures weighs { OnOk result (graph_weight terms.new ≤ graph_weight terms.old + 1) }
{
    let id = terms.two(Two::And, a, b)?;
    Ok(id)
}

/// Whether one of two tests is true. The graph's weight rises by at most 1.
///
/// # Errors
///
/// For want of memory; the nodes before stay.
#[tactic(auto, using(crate::proofs::formula_parts::Saying::saying))]
pub fn either(terms: &mut Terms, a: Id, b: Id) -> Result<Id, Memory>
    requires a { sort_at terms.old a ≡ Some Truth }
    requires b { sort_at terms.old b ≡ Some Truth }
    ensures test { IfOk result (λ id. (f g : Env → Bool) → IsTest terms.old a f → IsTest terms.old b g → IsTest terms.new id (λ env. f env || g env)) }
    ensures sorted { IfOk result (λ id. sort_at terms.new id ≡ Some Truth) }
    ensures grows { Grows terms.old terms.new }
    ensures weighs { OnOk result (graph_weight terms.new ≤ graph_weight terms.old + 1) }
{
    let id = terms.two(Two::Or, a, b)?;
    Ok(id)
}

/// Whether this test and all the others are true.
#[tactic(auto, using(crate::proofs::formula_parts::Saying::saying))]
fn all_with(terms: &mut Terms, first: Id, tests: &[Id]) -> Result<Id, Memory>
    requires first { sort_at terms.old first ≡ Some Truth }
    requires tests { All (λ i. sort_at terms.old i ≡ Some Truth) tests.now }
    ensures test { IfOk result (λ id. (f : Env → Bool) (fs : List (Env → Bool)) → IsTest terms.old first f → AreTests terms.old tests.now fs → IsTest terms.new id (λ env. f env && all_true fs env)) }
    ensures sorted { IfOk result (λ id. sort_at terms.new id ≡ Some Truth) }
    ensures grows { Grows terms.old terms.new }
    ensures weighs { OnOk result (graph_weight terms.new ≤ graph_weight terms.old + length tests.now) }
{
    let mut id = first;
    for test in tests {
        id = both(terms, id, *test)?;
    }
    Ok(id)
}

/// Whether all these tests are true. The graph's weight rises by at most their number.
///
/// # Errors
///
/// For want of memory; the nodes before stay.
#[tactic(auto, using(crate::proofs::formula_parts::Saying::saying))]
pub fn all_of(terms: &mut Terms, tests: &[Id]) -> Result<Id, Memory>
    requires { All (λ i. sort_at terms.old i ≡ Some Truth) tests.now }
    ensures test { IfOk result (λ id. (fs : List (Env → Bool)) → AreTests terms.old tests.now fs → IsTest terms.new id (all_true fs)) }
    ensures sorted { IfOk result (λ id. sort_at terms.new id ≡ Some Truth) }
    ensures grows { Grows terms.old terms.new }
    ensures weighs { OnOk result (graph_weight terms.new ≤ graph_weight terms.old + length tests.now) }
{
    let truth = terms.constant(Value::Bool(true))?;
    let id = all_with(terms, truth, tests)?;
    Ok(id)
}

/// Whether this test or one of the others is true.
#[tactic(auto, using(crate::proofs::formula_parts::Saying::saying))]
fn any_with(terms: &mut Terms, first: Id, tests: &[Id]) -> Result<Id, Memory>
    requires first { sort_at terms.old first ≡ Some Truth }
    requires tests { All (λ i. sort_at terms.old i ≡ Some Truth) tests.now }
    ensures test { IfOk result (λ id. (f : Env → Bool) (fs : List (Env → Bool)) → IsTest terms.old first f → AreTests terms.old tests.now fs → IsTest terms.new id (λ env. f env || some_true fs env)) }
    ensures sorted { IfOk result (λ id. sort_at terms.new id ≡ Some Truth) }
    ensures grows { Grows terms.old terms.new }
    ensures weighs { OnOk result (graph_weight terms.new ≤ graph_weight terms.old + length tests.now) }
{
    let mut id = first;
    for test in tests {
        id = either(terms, id, *test)?;
    }
    Ok(id)
}

/// Whether one of these tests is true. The graph's weight rises by at most their number.
///
/// # Errors
///
/// For want of memory; the nodes before stay.
#[tactic(auto, using(crate::proofs::formula_parts::Saying::saying))]
pub fn any_of(terms: &mut Terms, tests: &[Id]) -> Result<Id, Memory>
    requires { All (λ i. sort_at terms.old i ≡ Some Truth) tests.now }
    ensures test { IfOk result (λ id. (fs : List (Env → Bool)) → AreTests terms.old tests.now fs → IsTest terms.new id (some_true fs)) }
    ensures sorted { IfOk result (λ id. sort_at terms.new id ≡ Some Truth) }
    ensures grows { Grows terms.old terms.new }
    ensures weighs { OnOk result (graph_weight terms.new ≤ graph_weight terms.old + length tests.now) }
{
    let falsity = terms.constant(Value::Bool(false))?;
    let id = any_with(terms, falsity, tests)?;
    Ok(id)
}
