// The text of a value.
ghost use Rattle.std.specs.Prelude.{◌≡◌, ◌++◌, map, IfOk, OnOk, decimal};
ghost use Rattle.civl_verdicts.specs.models.Text.{word_text, listed, value_text};

use civl_bits::{Row, Value, Word};
use civl_conditions::naming::{put, put_number};
use civl_tree::Memory;
use std::alloc::Global;

/// `value:width`
fn put_word(out: &mut Vec<u8>, word: Word) -> Result<(), Memory>
    ensures { OnOk result (out.new.items ≡ out.old.items ++ word_text word.0 word.1) }
{
    put_number(out, word.value())?;
    put(out, b":")?;
    put_number(out, word.width())
}

/// The cells of a row, with `, ` between them.
fn put_cells(out: &mut Vec<u8>, row: &Row) -> Result<(), Memory>
    ensures { OnOk result (out.new.items ≡ out.old.items ++ listed (map (word_text row.now.width) row.now.cells)) }
{
    put_word(out, row.cell(0))?;
    for at in 1..row.size() {
        put(out, b", ")?;
        put_word(out, row.cell(at))?;
    }
    Ok(())
}

/// Writes the text of a value behind what is there: `true`, `false`, `value:width` for a word, or for a row `[`, the cells
/// joined by `, `, and `]`, each cell as a word. Numbers are decimal, without leading zeros.
///
/// # Errors
///
/// For want of memory; then a front of the text may be written.
pub fn put_value_text(out: &mut Vec<u8>, value: &Value) -> Result<(), Memory>
    ensures { OnOk result (out.new.items ≡ out.old.items ++ value_text value.now) }
{
    match value {
        Value::Bool(true) => put(out, b"true"),
        Value::Bool(false) => put(out, b"false"),
        Value::Word(word) => put_word(out, *word),
        Value::Row(row) => {
            put(out, b"[")?;
            put_cells(out, row)?;
            put(out, b"]")
        }
    }
}

/// The text of a value, as `put_value_text` writes it.
///
/// # Errors
///
/// For want of memory.
pub fn value_text(alloc: Global, value: &Value) -> Result<Vec<u8>, Memory>
    ensures { IfOk result (λ text. text.items ≡ value_text value.now) }
{
    let mut text = Vec::new(alloc);
    put_value_text(&mut text, value)?;
    Ok(text)
}
