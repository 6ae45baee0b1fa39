// Operations with two operands, and choices.
ghost use Rattle.std.specs.Prelude.{◌≡◌, ◌≤◌, ◌<◌, ◌*◌, ◌^◌, length, Some, IsSome, IsTrue, IfOk};
ghost use Rattle.std.specs.Result.{result_map_both};
ghost use Rattle.civl_bits.specs.declared.value.Value.TheVariants as value;
ghost use Rattle.civl_tree.specs.declared.expr.Sort.TheVariants as sort;
ghost use Rattle.civl_tree.specs.rules.Sorts.{two_sort, pick_sort};
ghost use Rattle.civl_tree.specs.rules.StoreSize.{bits_of};
ghost use Rattle.civl_firing.specs.values.Operators.{two_value, pick_value};
ghost use Rattle.civl_tree.specs.rules.Exprs.{is_width};
ghost use Rattle.civl_firing.specs.values.Weights.{two_weight, pick_weight};
ghost use Rattle.civl_cnf.specs.Literal.{truth_of};
ghost use Rattle.civl_cnf.specs.ClauseSet.{IsBelow};
ghost use Rattle.civl_cnf.specs.Gates.{Extends};
ghost use Rattle.civl_circuits.specs.Circuits.{number, IsOne};
ghost use Rattle.civl_symbolic.specs.Symbolic.{value_under, sort_of, IsIn, Makes};
ghost use Rattle.civl_symbolic.specs.declared.symbolic.Symbolic.TheVariants as symbolic;

use crate::{Lits, Symbolic};
use civl_circuits::{
    Circuit, add, arithmetic_shift_right, bitwise_and, bitwise_or, bitwise_xor, choose, divide,
    equal, iff, implies, less, less_or_equal, multiply, or, shift_left, shift_right, signed_less,
    signed_less_or_equal, subtract,
};
use civl_cnf::{Lit, Memory};
use civl_tree::Two;
use std::alloc::Global;

/// An operation on two operands whose sorts fit. `one` is a literal that is always true.
///
/// # Errors
///
/// For want of memory. The clauses that the gates then have still extend the old ones in exactly one way.
#[tactic(auto, using(crate::proofs::Making::extending))]
pub fn binary(
    gates: &mut Circuit,
    alloc: Global,
    one: Lit,
    op: Two,
    a: &Symbolic,
    b: &Symbolic,
) -> Result<Symbolic, Memory>
    requires room { gates.old.variables ≤ 2 ^ 29 }
    requires one { IsOne gates.old one }
    requires a { IsIn gates.old a.now }
    requires b { IsIn gates.old b.now }
    requires sorts { IsSome (two_sort op (Some (sort_of a.now)) (Some (sort_of b.now))) }
    ensures ok { IfOk result (λ made. Makes gates.old gates.new made (two_sort op (Some (sort_of a.now)) (Some (sort_of b.now)))
        (2 * two_weight op (bits_of (sort_of a.now))) (λ v. two_value op (value_under v a.now) (value_under v b.now))) }
    ensures extends { Extends gates.old gates.new }
{
    match a {
        Symbolic::Bool(x) => match b {
            Symbolic::Bool(y) => { of_bools(gates, one, op, *x, *y) }
            Symbolic::Word(_) => unreachable!(),
        },
        Symbolic::Word(xs) => match b {
            Symbolic::Bool(_) => unreachable!(),
            Symbolic::Word(ys) => { of_words(gates, alloc, one, op, xs.as_slice(), ys.as_slice()) }
        },
    }
}

#[tactic(auto, using(crate::proofs::Making::extending))]
fn of_bools(gates: &mut Circuit, one: Lit, op: Two, a: Lit, b: Lit) -> Result<Symbolic, Memory>
    requires room { gates.old.variables ≤ 2 ^ 29 }
    requires one { IsOne gates.old one }
    requires a { a.variable < gates.old.variables }
    requires b { b.variable < gates.old.variables }
    requires sorts { IsSome (two_sort op (Some sort.Bool) (Some sort.Bool)) }
    ensures ok { IfOk result (λ made. Makes gates.old gates.new made (two_sort op (Some sort.Bool) (Some sort.Bool))
        (2 * two_weight op 1) (λ v. two_value op (value.Bool (truth_of v a)) (value.Bool (truth_of v b)))) }
    ensures extends { Extends gates.old gates.new }
{
    match op {
        Two::And => {
            let lit = gates.and(a, b)?;
            Ok(Symbolic::Bool(lit))
        }
        Two::Or => {
            let lit = or(gates, a, b)?;
            Ok(Symbolic::Bool(lit))
        }
        Two::Implies => {
            let lit = implies(gates, a, b)?;
            Ok(Symbolic::Bool(lit))
        }
        Two::Eq => {
            let lit = iff(gates, a, b)?;
            Ok(Symbolic::Bool(lit))
        }
        Two::Ne => {
            let lit = gates.xor(a, b)?;
            Ok(Symbolic::Bool(lit))
        }
        _ => unreachable!(),
    }
}

#[tactic(auto, using(crate::proofs::Making::extending))]
fn of_words(
    gates: &mut Circuit,
    alloc: Global,
    one: Lit,
    op: Two,
    a: &[Lit],
    b: &[Lit],
) -> Result<Symbolic, Memory>
    requires room { gates.old.variables ≤ 2 ^ 29 }
    requires one { IsOne gates.old one }
    requires a { IsBelow gates.old.variables a.now }
    requires b { IsBelow gates.old.variables b.now }
    requires width { IsTrue (is_width (length a.now)) }
    requires narrow { 1 ≤ length a.now }
    requires wide { length a.now ≤ 32 }
    requires size { length a.now ≡ length b.now }
    requires sorts { IsSome (two_sort op (Some (sort.Word (length a.now))) (Some (sort.Word (length b.now)))) }
    ensures ok { IfOk result (λ made. Makes gates.old gates.new made (two_sort op (Some (sort.Word (length a.now))) (Some (sort.Word (length b.now))))
        (2 * two_weight op (length a.now)) (λ v. two_value op (value.Word (length a.now, number v a.now)) (value.Word (length b.now, number v b.now)))) }
    ensures extends { Extends gates.old gates.new }
{
    match op {
        Two::Add => word(add(gates, alloc, one, a, b)),
        Two::Sub => word(subtract(gates, alloc, one, a, b)),
        Two::Mul => word(multiply(gates, alloc, one, a, b)),
        Two::BitAnd => word(bitwise_and(gates, alloc, a, b)),
        Two::BitOr => word(bitwise_or(gates, alloc, a, b)),
        Two::BitXor => word(bitwise_xor(gates, alloc, a, b)),
        Two::Shl => word(shift_left(gates, alloc, one, a, b)),
        Two::Shr => word(shift_right(gates, alloc, one, a, b)),
        Two::Sar => word(arithmetic_shift_right(gates, alloc, one, a, b)),
        Two::Udiv => {
            let division = divide(gates, alloc, one, a, b)?;
            Ok(Symbolic::Word(Lits::from_vec(division.quotient)))
        }
        Two::Urem => {
            let division = divide(gates, alloc, one, a, b)?;
            Ok(Symbolic::Word(Lits::from_vec(division.remainder)))
        }
        Two::Lt => bit(less(gates, alloc, one, a, b)),
        Two::Le => bit(less_or_equal(gates, alloc, one, a, b)),
        Two::Slt => bit(signed_less(gates, alloc, one, a, b)),
        Two::Sle => bit(signed_less_or_equal(gates, alloc, one, a, b)),
        Two::Eq => bit(equal(gates, one, a, b)),
        Two::Ne => {
            let same = equal(gates, one, a, b)?;
            Ok(Symbolic::Bool(same.negate()))
        }
        _ => unreachable!(),
    }
}

/// A word of literals, where there is one.
fn word(lits: Result<Vec<Lit>, Memory>) -> Result<Symbolic, Memory>
    ensures { result ≡ result_map_both (λ word. symbolic.Word word.items) (λ memory. memory) lits }
{
    match lits {
        Ok(lits) => Ok(Symbolic::Word(Lits::from_vec(lits))),
        Err(memory) => Err(memory),
    }
}

/// A bool of a literal, where there is one.
fn bit(lit: Result<Lit, Memory>) -> Result<Symbolic, Memory>
    ensures { result ≡ result_map_both (λ output. symbolic.Bool output) (λ memory. memory) lit }
{
    match lit {
        Ok(lit) => Ok(Symbolic::Bool(lit)),
        Err(memory) => Err(memory),
    }
}

/// `(c ? a : b)`, where the sorts fit.
///
/// # Errors
///
/// For want of memory. The clauses that the gates then have still extend the old ones in exactly one way.
#[tactic(auto, using(crate::proofs::Making::extending))]
pub fn pick(
    gates: &mut Circuit,
    alloc: Global,
    c: &Symbolic,
    a: &Symbolic,
    b: &Symbolic,
) -> Result<Symbolic, Memory>
    requires room { gates.old.variables ≤ 2 ^ 29 }
    requires c { IsIn gates.old c.now }
    requires a { IsIn gates.old a.now }
    requires b { IsIn gates.old b.now }
    requires sorts { IsSome (pick_sort (Some (sort_of c.now)) (Some (sort_of a.now)) (Some (sort_of b.now))) }
    ensures ok { IfOk result (λ made. Makes gates.old gates.new made (pick_sort (Some (sort_of c.now)) (Some (sort_of a.now)) (Some (sort_of b.now)))
        (2 * pick_weight (bits_of (sort_of a.now))) (λ v. pick_value (value_under v c.now) (value_under v a.now) (value_under v b.now))) }
    ensures extends { Extends gates.old gates.new }
{
    match c {
        Symbolic::Bool(test) => { pick_by(gates, alloc, *test, a, b) }
        Symbolic::Word(_) => unreachable!(),
    }
}

#[tactic(auto, using(crate::proofs::Making::extending))]
fn pick_by(
    gates: &mut Circuit,
    alloc: Global,
    c: Lit,
    a: &Symbolic,
    b: &Symbolic,
) -> Result<Symbolic, Memory>
    requires room { gates.old.variables ≤ 2 ^ 29 }
    requires c { c.variable < gates.old.variables }
    requires a { IsIn gates.old a.now }
    requires b { IsIn gates.old b.now }
    requires sorts { IsSome (pick_sort (Some sort.Bool) (Some (sort_of a.now)) (Some (sort_of b.now))) }
    ensures ok { IfOk result (λ made. Makes gates.old gates.new made (pick_sort (Some sort.Bool) (Some (sort_of a.now)) (Some (sort_of b.now)))
        (2 * pick_weight (bits_of (sort_of a.now))) (λ v. pick_value (value.Bool (truth_of v c)) (value_under v a.now) (value_under v b.now))) }
    ensures extends { Extends gates.old gates.new }
{
    match a {
        Symbolic::Bool(x) => match b {
            Symbolic::Bool(y) => bit(gates.ite(c, *x, *y)),
            Symbolic::Word(_) => unreachable!(),
        },
        Symbolic::Word(xs) => match b {
            Symbolic::Bool(_) => unreachable!(),
            Symbolic::Word(ys) => word(choose(gates, alloc, c, xs.as_slice(), ys.as_slice())),
        },
    }
}
