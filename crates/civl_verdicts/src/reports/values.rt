// The values of a condition's variables.
ghost use Rattle.std.specs.Prelude.{◌≡◌, ◌++◌, OnOk};
ghost use Rattle.civl_conditions.specs.Variables.{variables};
ghost use Rattle.civl_verdicts.specs.reports.Values.{value_lines};

use crate::reports::writing::put_value;
use civl_bits::Value;
use civl_conditions::{Condition, Variable, variables as variables_of};
use civl_layers::Layered;
use civl_tree::{List, Memory};
use std::alloc::Global;

/// A line for each variable, with its value.
fn put_lines(
    out: &mut Vec<u8>,
    indentation: &[u8],
    variables: &List<Variable>,
    values: &List<Value>,
) -> Result<(), Memory>
    ensures { OnOk result (out.new.items ≡ out.old.items ++ value_lines indentation.now variables.now values.now) }
{
    for at in 0..variables.len().min(values.len()) {
        put_value(out, indentation, &variables.get(at).name, values.get(at))?;
    }
    Ok(())
}

/// Puts a line for each variable of a condition behind what is there, with its value, each behind an indentation.
///
/// # Errors
///
/// For want of memory.
pub fn put_values(
    alloc: Global,
    out: &mut Vec<u8>,
    src: &Layered,
    indentation: &[u8],
    condition: &Condition,
    values: &List<Value>,
) -> Result<(), Memory>
    ensures { OnOk result (out.new.items ≡ out.old.items ++ value_lines indentation.now (variables src.now condition.now) values.now) }
{
    let variables = variables_of(alloc, src, condition)?;
    put_lines(out, indentation, &variables, values)
}
