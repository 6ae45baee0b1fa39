// Constants and variables.
ghost use Rattle.std.specs.Prelude.{◌≤◌, ◌<◌, ◌+◌, ◌^◌, Bool, IsTrue, IfOk};
ghost use Rattle.civl_tree.specs.rules.StoreSize.{bits_of};
ghost use Rattle.civl_firing.specs.values.Values.{is_sort};
ghost use Rattle.civl_symbolic.specs.Symbolic.{IsConstant, IsVariable, is_flat, is_flat_value};

use crate::{Lits, Symbolic};
use civl_bits::Value;
use civl_cnf::{Lit, Memory};
use civl_tree::Sort;
use std::alloc::Global;

/// A constant that isn't a row, with no variable. `one` is a literal that is always true.
///
/// # Errors
///
/// For want of memory.
pub fn constant(alloc: Global, one: Lit, value: &Value) -> Result<Symbolic, Memory>
    requires { IsTrue (is_flat_value value.now) }
    ensures { IfOk result (λ made. IsConstant one made value.now) }
{
    match value {
        Value::Bool(true) => Ok(Symbolic::Bool(one)),
        Value::Bool(false) => Ok(Symbolic::Bool(one.negate())),
        Value::Word(word) => {
            let lits = civl_circuits::constant(alloc, one, word.width(), word.value())?;
            Ok(Symbolic::Word(Lits::from_vec(lits)))
        }
        Value::Row(_) => unreachable!(),
    }
}

/// A variable of a sort that isn't a row: its bits are the variables from `first` on.
///
/// # Errors
///
/// For want of memory.
pub fn variable(alloc: Global, first: u32, sort: Sort) -> Result<Symbolic, Memory>
    requires room { first + bits_of sort ≤ 2 ^ 30 }
    requires flat { IsTrue (is_flat sort) }
    requires limits { IsTrue (is_sort sort) }
    ensures { IfOk result (λ made. IsVariable first made sort) }
{
    match sort {
        Sort::Bool => Ok(Symbolic::Bool(Lit::new(first, true))),
        Sort::Word(width) => {
            let mut lits = Vec::new(alloc);
            for bit in 0..width {
                lits.push(Lit::new(first + bit, true))?;
            }
            Ok(Symbolic::Word(Lits::from_vec(lits)))
        }
        Sort::Row(_, _) => unreachable!(),
    }
}
