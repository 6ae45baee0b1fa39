// Refusals of programs whose conditions aren't decided.
ghost use Rattle.std.specs.Prelude.{◌≡◌, ◌++◌, OnOk, IfOk};
ghost use Rattle.civl_verdicts.specs.reports.Findings.{formula_text, heavy_text, no_initial_text};

use crate::reports::writing::{put, put_number};
use civl_conditions::{Condition, name};
use civl_layers::{Layered, program};
use civl_tree::Memory;
use std::alloc::Global;

/// Puts the name of a formula behind what is there: that of a condition, or of the search for an initial store.
///
/// # Errors
///
/// For want of memory.
pub fn put_formula(
    alloc: Global,
    out: &mut Vec<u8>,
    src: &Layered,
    formula: Option<Condition>,
) -> Result<(), Memory>
    ensures { OnOk result (out.new.items ≡ out.old.items ++ formula_text src.now formula) }
{
    match formula {
        None => put(out, b"initial"),
        Some(condition) => {
            let name = name(alloc, src, &condition)?;
            put(out, name.as_slice())
        }
    }
}

/// What is reported of a program one of whose formulas weighs too much, of which this is the first: a line that names it, a
/// condition, or the search for an initial store where there is none.
///
/// # Errors
///
/// For want of memory.
pub fn report_heavy(
    alloc: Global,
    src: &Layered,
    formula: Option<Condition>,
) -> Result<Vec<u8>, Memory>
    ensures { IfOk result (λ out. out.items ≡ heavy_text src.now formula) }
{
    let mut out = Vec::new(alloc);
    put(&mut out, b"refused E61 at ")?;
    put_formula(alloc, &mut out, src, formula)?;
    put(&mut out, b" over 400000\n")?;
    Ok(out)
}

/// Puts a line behind what is there that says that no store is initial, at the item of `init`.
///
/// # Errors
///
/// For want of memory.
pub fn put_no_initial(out: &mut Vec<u8>, src: &Layered) -> Result<(), Memory>
    ensures { OnOk result (out.new.items ≡ out.old.items ++ no_initial_text src.now) }
{
    put(out, b"refused E70 at item ")?;
    put_number(out, program(src).globals.len())?;
    put(out, b"\n")?;
    Ok(())
}
