// Whether rows are the same.
ghost use Rattle.std.specs.Prelude.{◌≡◌, ◌+◌, ◌-◌, ◌*◌, ◌<◌, length, slice_index, IfOk, Some, IsTrue};
ghost use Rattle.civl_tree.specs.declared.expr.Sort.TheVariants as sort;
ghost use Rattle.civl_firing.specs.values.Operators.{two_value};
ghost use Rattle.civl_firing.specs.values.Weights.{bits_in};
ghost use Rattle.civl_terms.specs.Graphs.{sort_at, value_at};
ghost use Rattle.civl_terms.specs.Building.{Grows};
ghost use Rattle.civl_blast.specs.reach.Reaching.{is_plain};
ghost use Rattle.civl_blast.specs.inner.rows.Making.{HaveSort, MakesOne, UsesThree, UsesPairs, joined, IsComparison, IsJoin};

use crate::rows::building::two;
use crate::rows::memory::Memory;
use civl_terms::{Id, Terms};
use civl_tree::Two;

/// One more pair of cells.
#[tactic(auto, using(crate::proofs::rows::Growth::growth))]
fn compare_next(terms: &mut Terms, op: Two, join: Two, all: Id, a: Id, b: Id) -> Result<Id, Memory>
    requires op { IsComparison op }
    requires join { IsJoin join }
    requires all { sort_at terms.old all ≡ Some sort.Bool }
    requires plain { IsTrue (is_plain (sort_at terms.old a)) }
    requires same { sort_at terms.old b ≡ sort_at terms.old a }
    ensures grows { Grows terms.old terms.new }
    ensures made { IfOk result (λ id. MakesOne terms.old terms.new (UsesThree all a b) id (Some sort.Bool)
        (λ env. two_value join (value_at env terms.old all) (two_value op (value_at env terms.old a) (value_at env terms.old b)))
        (bits_in (sort_at terms.old a) + 1)) }
{
    let next = two(terms, op, a, b)?;
    let id = two(terms, join, all, next)?;
    Ok(id)
}

/// `==` of rows, a comparison for each cell, all joined by `&&`; or `!=`, joined by `||`. For bools and words, which are
/// their own only cells, it is the comparison itself.
#[tactic(auto, using(crate::proofs::rows::Growth::growth))]
pub(crate) fn compare(
    terms: &mut Terms,
    op: Two,
    join: Two,
    a: &[Id],
    b: &[Id],
) -> Result<Id, Memory>
    requires op { IsComparison op }
    requires join { IsJoin join }
    requires some { 0 < length a.now }
    requires size { length b.now ≡ length a.now }
    requires plain { IsTrue (is_plain (sort_at terms.old (slice_index a.now 0))) }
    requires a { HaveSort terms.old a.now (sort_at terms.old (slice_index a.now 0)) }
    requires b { HaveSort terms.old b.now (sort_at terms.old (slice_index a.now 0)) }
    ensures grows { Grows terms.old terms.new }
    ensures made { IfOk result (λ id. MakesOne terms.old terms.new (UsesPairs a.now b.now) id (Some sort.Bool)
        (λ env. joined op join (λ c. value_at env terms.old (slice_index a.now c)) (λ c. value_at env terms.old (slice_index b.now c)) (length a.now - 1))
        (length a.now * (bits_in (sort_at terms.old (slice_index a.now 0)) + 1))) }
{
    let mut all = two(terms, op, a[0], b[0])?;
    for i in 0..a.len() - 1 {
        let first = a[i + 1];
        let second = b[i + 1];
        all = compare_next(terms, op, join, all, first, second)?;
    }
    Ok(all)
}
