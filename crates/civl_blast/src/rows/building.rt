// Nodes without rows: the calls of a graph, with what is reached of what they answer.
ghost use Rattle.std.specs.Prelude.{◌<◌, length, IfOk, Some, IsTrue};
ghost use Rattle.civl_tree.specs.rules.Sorts.{one_sort, two_sort, pick_sort, slice_sort, widen_sort, join_sort};
ghost use Rattle.civl_firing.specs.values.Operators.{one_value, two_value, pick_value, slice_value, widen_value, join_value};
ghost use Rattle.civl_firing.specs.values.Values.{sort_of_value};
ghost use Rattle.civl_firing.specs.values.Weights.{bits_in, one_weight, two_weight, pick_weight, move_weight};
ghost use Rattle.civl_terms.specs.Graphs.{sort_at, value_at};
ghost use Rattle.civl_terms.specs.Building.{Grows};
ghost use Rattle.civl_blast.specs.reach.Reaching.{is_plain};
ghost use Rattle.civl_blast.specs.inner.rows.Making.{MakesOne, UsesNone, UsesOne, UsesTwo, UsesThree};

use crate::rows::memory::Memory;
use civl_bits::Value;
use civl_terms::{Id, Terms};
use civl_tree::{One, Two};

/// A constant.
pub(crate) fn constant(terms: &mut Terms, value: Value) -> Result<Id, Memory>
    requires { IsTrue (is_plain (Some (sort_of_value value))) }
    ensures grows { Grows terms.old terms.new }
    ensures made { IfOk result (λ id. MakesOne terms.old terms.new UsesNone id (Some (sort_of_value value)) (λ env. value) 0) }
{
    let id = terms.constant(value)?;
    Ok(id)
}

pub(crate) fn one(terms: &mut Terms, op: One, a: Id) -> Result<Id, Memory>
    requires a { a < length terms.old }
    requires plain { IsTrue (is_plain (one_sort op (sort_at terms.old a))) }
    ensures grows { Grows terms.old terms.new }
    ensures made { IfOk result (λ id. MakesOne terms.old terms.new (UsesOne a) id
        (one_sort op (sort_at terms.old a)) (λ env. one_value op (value_at env terms.old a))
        (one_weight op (bits_in (sort_at terms.old a)))) }
{
    let id = terms.one(op, a)?;
    Ok(id)
}

pub(crate) fn two(terms: &mut Terms, op: Two, a: Id, b: Id) -> Result<Id, Memory>
    requires a { a < length terms.old }
    requires b { b < length terms.old }
    requires plain { IsTrue (is_plain (two_sort op (sort_at terms.old a) (sort_at terms.old b))) }
    ensures grows { Grows terms.old terms.new }
    ensures made { IfOk result (λ id. MakesOne terms.old terms.new (UsesTwo a b) id
        (two_sort op (sort_at terms.old a) (sort_at terms.old b))
        (λ env. two_value op (value_at env terms.old a) (value_at env terms.old b))
        (two_weight op (bits_in (sort_at terms.old a)))) }
{
    let id = terms.two(op, a, b)?;
    Ok(id)
}

pub(crate) fn pick(terms: &mut Terms, c: Id, a: Id, b: Id) -> Result<Id, Memory>
    requires c { c < length terms.old }
    requires a { a < length terms.old }
    requires b { b < length terms.old }
    requires plain { IsTrue (is_plain (pick_sort (sort_at terms.old c) (sort_at terms.old a) (sort_at terms.old b))) }
    ensures grows { Grows terms.old terms.new }
    ensures made { IfOk result (λ id. MakesOne terms.old terms.new (UsesThree c a b) id
        (pick_sort (sort_at terms.old c) (sort_at terms.old a) (sort_at terms.old b))
        (λ env. pick_value (value_at env terms.old c) (value_at env terms.old a) (value_at env terms.old b))
        (pick_weight (bits_in (sort_at terms.old a)))) }
{
    let id = terms.pick(c, a, b)?;
    Ok(id)
}

pub(crate) fn slice(terms: &mut Terms, a: Id, high: u32, low: u32) -> Result<Id, Memory>
    requires a { a < length terms.old }
    requires plain { IsTrue (is_plain (slice_sort (sort_at terms.old a) high low)) }
    ensures grows { Grows terms.old terms.new }
    ensures made { IfOk result (λ id. MakesOne terms.old terms.new (UsesOne a) id
        (slice_sort (sort_at terms.old a) high low) (λ env. slice_value (value_at env terms.old a) high low) move_weight) }
{
    let id = terms.slice(a, high, low)?;
    Ok(id)
}

pub(crate) fn widen(terms: &mut Terms, a: Id, width: u32) -> Result<Id, Memory>
    requires a { a < length terms.old }
    requires plain { IsTrue (is_plain (widen_sort (sort_at terms.old a) width)) }
    ensures grows { Grows terms.old terms.new }
    ensures made { IfOk result (λ id. MakesOne terms.old terms.new (UsesOne a) id
        (widen_sort (sort_at terms.old a) width) (λ env. widen_value (value_at env terms.old a) width) move_weight) }
{
    let id = terms.widen(a, width)?;
    Ok(id)
}

pub(crate) fn join(terms: &mut Terms, a: Id, b: Id) -> Result<Id, Memory>
    requires a { a < length terms.old }
    requires b { b < length terms.old }
    requires plain { IsTrue (is_plain (join_sort (sort_at terms.old a) (sort_at terms.old b))) }
    ensures grows { Grows terms.old terms.new }
    ensures made { IfOk result (λ id. MakesOne terms.old terms.new (UsesTwo a b) id
        (join_sort (sort_at terms.old a) (sort_at terms.old b))
        (λ env. join_value (value_at env terms.old a) (value_at env terms.old b)) move_weight) }
{
    let id = terms.join(a, b)?;
    Ok(id)
}
