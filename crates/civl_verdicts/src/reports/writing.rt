// Texts behind one another.
ghost use Rattle.std.specs.Prelude.{◌≡◌, ◌++◌, OnOk, decimal};
ghost use Rattle.civl_verdicts.specs.reports.Values.{value_line};

use crate::models::put_value_text;
use civl_bits::Value;
use civl_tree::{Memory, Name};
use itoa::Buffer;

/// Puts a text behind what is there.
///
/// # Errors
///
/// For want of memory.
pub fn put(out: &mut Vec<u8>, text: &[u8]) -> Result<(), Memory>
    ensures { OnOk result (out.new.items ≡ out.old.items ++ text.now) }
{
    out.extend_from_slice(text)?;
    Ok(())
}

/// Puts a number behind what is there, in decimal.
///
/// # Errors
///
/// For want of memory.
pub fn put_number(out: &mut Vec<u8>, number: usize) -> Result<(), Memory>
    ensures { OnOk result (out.new.items ≡ out.old.items ++ decimal number) }
{
    let mut buffer = Buffer::new();
    out.extend_from_slice(buffer.format(number).as_bytes())?;
    Ok(())
}

/// Puts a line `name = value` behind what is there, which begins with an indentation.
///
/// # Errors
///
/// For want of memory.
pub fn put_value(
    out: &mut Vec<u8>,
    indentation: &[u8],
    name: &Name,
    value: &Value,
) -> Result<(), Memory>
    ensures { OnOk result (out.new.items ≡ out.old.items ++ value_line indentation.now name.now value.now) }
{
    put(out, indentation)?;
    put(out, name.as_slice())?;
    put(out, b" = ")?;
    put_value_text(out, value)?;
    put(out, b"\n")
}
