// Pieces of texts.
ghost use Rattle.std.specs.Prelude.{◌≡◌, ◌++◌, OnOk};
ghost use Rattle.civl_lines.specs.Pieces.{equation, change_text};

use civl_bits::Value;
use civl_tree::{Memory, Name};
use civl_verdicts::models::put_value_text;
use civl_verdicts::reports::put;

/// Puts `name = value` behind what is there.
///
/// # Errors
///
/// For want of memory.
pub fn put_equation(out: &mut Vec<u8>, name: &Name, value: &Value) -> Result<(), Memory>
    ensures { OnOk result (out.new.items ≡ out.old.items ++ equation name.now value.now) }
{
    put(out, name.as_slice())?;
    put(out, b" = ")?;
    put_value_text(out, value)
}

/// Puts `name: before -> after` behind what is there.
///
/// # Errors
///
/// For want of memory.
pub fn put_change(
    out: &mut Vec<u8>,
    name: &Name,
    before: &Value,
    after: &Value,
) -> Result<(), Memory>
    ensures { OnOk result (out.new.items ≡ out.old.items ++ change_text name.now before.now after.now) }
{
    put(out, name.as_slice())?;
    put(out, b": ")?;
    put_value_text(out, before)?;
    put(out, b" -> ")?;
    put_value_text(out, after)
}
