//! Zeros of parameters, outputs and locals, behind other values.
ghost use Rattle.std.specs.Prelude.{◌≡◌, ◌++◌, OnOk};
ghost use Rattle.civl_firing.specs.Scope.{zeros_of_params, zeros_of_locals};

use crate::values::zero;
use civl_bits::Value;
use civl_tree::{Local, Memory, Param};

/// Puts the zeros of parameters or outputs behind some values.
///
/// # Errors
///
/// For want of memory.
pub fn push_params(values: &mut Vec<Value>, params: &[Param]) -> Result<(), Memory>
    ensures { OnOk result (values.new.items ≡ values.old.items ++ zeros_of_params params.now) }
{
    for param in params {
        values.push(zero(param.sort))?;
    }
    Ok(())
}

/// Puts the zeros of locals behind some values.
///
/// # Errors
///
/// For want of memory.
pub fn push_locals(values: &mut Vec<Value>, locals: &[Local]) -> Result<(), Memory>
    ensures { OnOk result (values.new.items ≡ values.old.items ++ zeros_of_locals locals.now) }
{
    for local in locals {
        values.push(zero(local.sort))?;
    }
    Ok(())
}
