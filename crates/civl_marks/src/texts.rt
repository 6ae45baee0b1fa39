// The line that tells marks.
ghost use Rattle.std.specs.Prelude.{◌≡◌, ◌++◌, OnOk, IfOk, codes};
ghost use Rattle.civl_linear.specs.Cuts.{all_held};
ghost use Rattle.civl_losses.specs.Stories.{IsAtStep};
ghost use Rattle.civl_marks.specs.Marks.{line_of, mark_text, marks_line, marks_text, marks_told, next_lead};

use crate::marks::marks_of;
use civl_bits::Value;
use civl_conditions::{Condition, Variable, variables};
use civl_layers::{Held, Layered};
use civl_tree::{List, Memory};
use civl_verdicts::models::put_value_text;
use civl_verdicts::reports::put;
use std::alloc::Global;

/// Puts `name = value` behind a lead, where there is another value.
fn put_mark(
    out: &mut Vec<u8>,
    lead: &[u8],
    variable: &Variable,
    mark: &Option<Value>,
) -> Result<(), Memory>
    ensures { OnOk result (out.new.items ≡ out.old.items ++ mark_text lead.now variable.now mark.now) }
{
    if let Some(other) = mark {
        put(out, lead)?;
        put(out, variable.name.as_slice())?;
        put(out, b" = ")?;
        put_value_text(out, other)?;
    }
    Ok(())
}

/// What leads the next one.
fn next_lead<'a>(lead: &'a [u8], mark: &Option<Value>) -> &'a [u8]
    ensures { result.now ≡ next_lead lead.now mark.now }
{
    match mark {
        Some(_) => b", ",
        None => lead,
    }
}

/// Puts each marked value behind what is there, the first behind a lead and the others behind commas.
fn put_each(
    out: &mut Vec<u8>,
    variables: &List<Variable>,
    marks: &[Option<Value>],
) -> Result<(), Memory>
    ensures { OnOk result (out.new.items ≡ out.old.items ++ marks_text (codes "  violated too with ") variables.now marks.now) }
{
    let mut lead: &[u8] = b"  violated too with ";
    for at in 0..variables.len().min(marks.len()) {
        let mark = &marks[at];
        put_mark(out, lead, variables.get(at), mark)?;
        lead = next_lead(lead, mark);
    }
    Ok(())
}

/// Puts a text as a line behind what is there, if it isn't empty.
fn put_line(out: &mut Vec<u8>, text: &[u8]) -> Result<(), Memory>
    ensures { OnOk result (out.new.items ≡ out.old.items ++ line_of text.now) }
{
    if text.is_empty() {
        return Ok(());
    }
    put(out, text)?;
    put(out, b"\n")
}

/// Puts a line behind what is there that tells the other values with which a condition is violated too; no line, where it is with none.
///
/// # Errors
///
/// For want of memory.
pub fn put_marks(
    alloc: Global,
    out: &mut Vec<u8>,
    src: &Layered,
    held: &Held,
    condition: &Condition,
    values: &[Value],
) -> Result<(), Memory>
    requires step { IsAtStep src.now condition.now }
    requires held { held.now.cuts ≡ all_held src.now }
    ensures { OnOk result (out.new.items ≡ out.old.items ++ marks_told src.now condition.now values.now) }
{
    let found = marks_of(alloc, src, held, condition, values)?;
    let variables = variables(alloc, src, condition)?;
    let mut text = Vec::new(alloc);
    put_each(&mut text, &variables, found.as_slice())?;
    put_line(out, text.as_slice())
}
