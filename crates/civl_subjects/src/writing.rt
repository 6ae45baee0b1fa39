// Texts, numbers and sorts behind what is there.
ghost use Rattle.std.specs.Prelude.{◌≡◌, ◌++◌, OnOk, decimal};
ghost use Rattle.civl_subjects.specs.Texts.{number_text, sort_text};

use civl_tree::{Memory, Sort};
use itoa::Buffer;

/// A text.
pub(crate) fn put(out: &mut Vec<u8>, text: &[u8]) -> Result<(), Memory>
    ensures { OnOk result (out.new.items ≡ out.old.items ++ text.now) }
{
    out.extend_from_slice(text)?;
    Ok(())
}

/// A number in decimal.
pub(crate) fn put_number(out: &mut Vec<u8>, number: usize) -> Result<(), Memory>
    ensures { OnOk result (out.new.items ≡ out.old.items ++ decimal number) }
{
    let mut buffer = Buffer::new();
    out.extend_from_slice(buffer.format(number).as_bytes())?;
    Ok(())
}

/// So many of something, which is told by its word.
pub(crate) fn put_many(out: &mut Vec<u8>, number: usize, word: &[u8]) -> Result<(), Memory>
    ensures { OnOk result (out.new.items ≡ out.old.items ++ number_text number word.now) }
{
    put_number(out, number)?;
    put(out, word)?;
    if number == 1 {
        return Ok(());
    }
    put(out, b"s")
}

/// Puts a sort behind what is there, as the language writes it.
///
/// # Errors
///
/// For want of memory.
pub fn put_sort(out: &mut Vec<u8>, sort: Sort) -> Result<(), Memory>
    ensures { OnOk result (out.new.items ≡ out.old.items ++ sort_text sort) }
{
    match sort {
        Sort::Bool => put(out, b"bool"),
        Sort::Word(width) => {
            put(out, b"word(")?;
            put_number(out, width as usize)?;
            put(out, b")")
        }
        Sort::Row(index, width) => {
            put(out, b"row(")?;
            put_number(out, index as usize)?;
            put(out, b", ")?;
            put_number(out, width as usize)?;
            put(out, b")")
        }
    }
}
