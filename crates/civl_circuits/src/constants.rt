// Constants.
ghost use Rattle.std.specs.Prelude.{◌≤◌, ◌^◌, IfOk};
ghost use Rattle.civl_circuits.specs.Circuits.{IsStart};

use crate::Circuit;
use civl_cnf::{Clause, Cnf, Lit, Memory};
use std::alloc::Global;

/// The clause set that circuits grow from: so many variables of which nothing is said, at most 2^30, and a literal of one more that is always true.
///
/// # Errors
///
/// For want of memory.
pub fn start(alloc: Global, inputs: u32) -> Result<(Circuit, Lit), Memory>
    requires { inputs ≤ 2 ^ 30 }
    ensures { IfOk result (λ start. IsStart inputs start.0 start.1) }
{
    let one = Lit::new(inputs, true);
    let mut cnf = Cnf::new(alloc, inputs + 1);
    let unit = [one];
    let clause = Clause::from_slice(alloc, unit.as_slice())?;
    cnf.push(clause)?;
    Ok((Circuit::new(alloc, cnf, one), one))
}
