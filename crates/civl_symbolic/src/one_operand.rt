// Operations with one operand.
ghost use Rattle.std.specs.Prelude.{◌≤◌, ◌*◌, ◌^◌, length, Some, IsSome, IsTrue, IfOk};
ghost use Rattle.civl_bits.specs.declared.value.Value.TheVariants as value;
ghost use Rattle.civl_tree.specs.declared.expr.Sort.TheVariants as sort;
ghost use Rattle.civl_tree.specs.rules.Sorts.{one_sort};
ghost use Rattle.civl_tree.specs.rules.StoreSize.{bits_of};
ghost use Rattle.civl_firing.specs.values.Operators.{one_value};
ghost use Rattle.civl_tree.specs.rules.Exprs.{is_width};
ghost use Rattle.civl_firing.specs.values.Weights.{one_weight};
ghost use Rattle.civl_cnf.specs.ClauseSet.{IsBelow};
ghost use Rattle.civl_cnf.specs.Gates.{Extends};
ghost use Rattle.civl_circuits.specs.Circuits.{number, IsOne};
ghost use Rattle.civl_symbolic.specs.Symbolic.{value_under, sort_of, IsIn, Makes};

use crate::{Lits, Symbolic};
use civl_circuits::{Circuit, complement, negate};
use civl_cnf::{Lit, Memory};
use civl_tree::One;
use std::alloc::Global;

/// `!`, `~` or `-` of an operand whose sort fits. `one` is a literal that is always true.
///
/// # Errors
///
/// For want of memory. The clauses that the gates then have still extend the old ones in exactly one way.
#[tactic(auto, using(crate::proofs::Making::extending))]
pub fn unary(
    gates: &mut Circuit,
    alloc: Global,
    one: Lit,
    op: One,
    a: &Symbolic,
) -> Result<Symbolic, Memory>
    requires room { gates.old.variables ≤ 2 ^ 29 }
    requires one { IsOne gates.old one }
    requires a { IsIn gates.old a.now }
    requires sorts { IsSome (one_sort op (Some (sort_of a.now))) }
    ensures ok { IfOk result (λ made. Makes gates.old gates.new made (one_sort op (Some (sort_of a.now))) (2 * one_weight op (bits_of (sort_of a.now)))
        (λ v. one_value op (value_under v a.now))) }
    ensures extends { Extends gates.old gates.new }
{
    match a {
        Symbolic::Bool(lit) => Ok(Symbolic::Bool(lit.negate())),
        Symbolic::Word(lits) => { unary_of_word(gates, alloc, one, op, lits.as_slice()) }
    }
}

#[tactic(auto, using(crate::proofs::Making::extending))]
fn unary_of_word(
    gates: &mut Circuit,
    alloc: Global,
    one: Lit,
    op: One,
    a: &[Lit],
) -> Result<Symbolic, Memory>
    requires room { gates.old.variables ≤ 2 ^ 29 }
    requires one { IsOne gates.old one }
    requires a { IsBelow gates.old.variables a.now }
    requires width { IsTrue (is_width (length a.now)) }
    requires wide { length a.now ≤ 32 }
    requires sorts { IsSome (one_sort op (Some (sort.Word (length a.now)))) }
    ensures ok { IfOk result (λ made. Makes gates.old gates.new made (one_sort op (Some (sort.Word (length a.now)))) (2 * one_weight op (length a.now))
        (λ v. one_value op (value.Word (length a.now, number v a.now)))) }
    ensures extends { Extends gates.old gates.new }
{
    match op {
        One::Not => unreachable!(),
        One::Flip => {
            let word = complement(alloc, a)?;
            Ok(Symbolic::Word(Lits::from_vec(word)))
        }
        One::Minus => {
            let word = negate(gates, alloc, one, a)?;
            Ok(Symbolic::Word(Lits::from_vec(word)))
        }
    }
}
