// Operations that only move bits.
ghost use Rattle.std.specs.Prelude.{Some, IsSome, IfOk, Bool};
ghost use Rattle.civl_tree.specs.rules.Sorts.{slice_sort, widen_sort, join_sort};
ghost use Rattle.civl_firing.specs.values.Operators.{slice_value, widen_value, join_value};
ghost use Rattle.civl_cnf.specs.Literal.{Literal};
ghost use Rattle.civl_symbolic.specs.Symbolic.{value_under, sort_of, Moves};

use crate::{Lits, Symbolic};
use civl_cnf::{Lit, Memory};
use std::alloc::Global;

/// `slice(a, high, low)` of an operand whose sort fits, with no variable.
///
/// # Errors
///
/// For want of memory.
pub fn slice(alloc: Global, a: &Symbolic, high: u32, low: u32) -> Result<Symbolic, Memory>
    requires { IsSome (slice_sort (Some (sort_of a.now)) high low) }
    ensures { IfOk result (λ made. (one : Literal) → Moves one a.now a.now made (slice_sort (Some (sort_of a.now)) high low) (λ v. slice_value (value_under v a.now) high low)) }
{
    match a {
        Symbolic::Bool(_) => unreachable!(),
        Symbolic::Word(lits) => {
            let word = civl_circuits::slice(alloc, lits.as_slice(), high as usize, low as usize)?;
            Ok(Symbolic::Word(Lits::from_vec(word)))
        }
    }
}

/// `widen(a, width)` of an operand whose sort fits, with no variable. `one` is a literal that is always true.
///
/// # Errors
///
/// For want of memory.
pub fn widen(alloc: Global, one: Lit, a: &Symbolic, width: u32) -> Result<Symbolic, Memory>
    requires { IsSome (widen_sort (Some (sort_of a.now)) width) }
    ensures { IfOk result (λ made. Moves one a.now a.now made (widen_sort (Some (sort_of a.now)) width) (λ v. widen_value (value_under v a.now) width)) }
{
    match a {
        Symbolic::Bool(_) => unreachable!(),
        Symbolic::Word(lits) => {
            let word = civl_circuits::widen(alloc, one, lits.as_slice(), width as usize)?;
            Ok(Symbolic::Word(Lits::from_vec(word)))
        }
    }
}

/// `join(a, b)` of operands whose sorts fit, with no variable.
///
/// # Errors
///
/// For want of memory.
pub fn join(alloc: Global, a: &Symbolic, b: &Symbolic) -> Result<Symbolic, Memory>
    requires { IsSome (join_sort (Some (sort_of a.now)) (Some (sort_of b.now))) }
    ensures { IfOk result (λ made. (one : Literal) → Moves one a.now b.now made (join_sort (Some (sort_of a.now)) (Some (sort_of b.now))) (λ v. join_value (value_under v a.now) (value_under v b.now))) }
{
    match a {
        Symbolic::Bool(_) => unreachable!(),
        Symbolic::Word(high) => match b {
            Symbolic::Bool(_) => unreachable!(),
            Symbolic::Word(low) => {
                let word = civl_circuits::join(alloc, high.as_slice(), low.as_slice())?;
                Ok(Symbolic::Word(Lits::from_vec(word)))
            }
        },
    }
}
