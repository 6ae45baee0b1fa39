// The values that a script writes.
ghost use Rattle.std.specs.Prelude.{ℕ, ◌≡◌, ◌≤◌, ◌^◌, length, None, IfSome};
ghost use Rattle.civl_bits.specs.Row.{Cells};
ghost use Rattle.civl_bits.specs.declared.value.Value.{Value as Of};
ghost use Rattle.civl_script.specs.Values.{IsValueOf, IsFlatOf, IsRowOf, IsWordOf};

use civl_bits::{Row, Value, Word};
use civl_tree::{Entry, Literal};

/// The word that a literal is.
fn word_of(literal: &Literal) -> Option<Word>
    ensures some { IfSome result (λ word. IsWordOf literal.now word) }
    ensures none { result ≡ None → (word : ℕ × ℕ) → IsWordOf literal.now word → ⊥ }
{
    match literal {
        Literal::Flag(_) => None,
        Literal::Number(value, width) => Word::new(*width, *value),
    }
}

/// The number of bits of the indices of so many cells.
fn index_of(size: usize) -> Option<u32>
    ensures some { IfSome result (λ index. (1 ≤ index) × (index ≤ 6) × (size ≡ 2 ^ index)) }
    ensures none { result ≡ None → (index : ℕ) → 1 ≤ index → index ≤ 6 → size ≡ 2 ^ index → ⊥ }
{
    match size {
        2 => Some(1),
        4 => Some(2),
        8 => Some(3),
        16 => Some(4),
        32 => Some(5),
        64 => Some(6),
        _ => None,
    }
}

/// The row of these cells, whose indices have so many bits.
fn row_at(index: u32, cells: &[Literal]) -> Option<Row>
    requires low { 1 ≤ index }
    requires high { index ≤ 6 }
    requires size { length cells.now ≡ 2 ^ index }
    ensures some { IfSome result (λ row. IsRowOf cells.now row) }
    ensures none { result ≡ None → (row : Cells) → IsRowOf cells.now row → ⊥ }
{
    let first = word_of(&cells[0])?;
    let mut row = Row::fill(index, first);
    for at in 0..cells.len() {
        let cell = word_of(&cells[at])?;
        if cell.width() != first.width() {
            return None;
        }
        row = row.set(Word::of(index, at as u32), cell);
    }
    Some(row)
}

/// The row of these cells.
fn row_of(cells: &[Literal]) -> Option<Row>
    ensures some { IfSome result (λ row. IsRowOf cells.now row) }
    ensures none { result ≡ None → (row : Cells) → IsRowOf cells.now row → ⊥ }
{
    let index = index_of(cells.len())?;
    row_at(index, cells)
}

/// The value of a single literal.
fn flat_of(cells: &[Literal]) -> Option<Value>
    ensures some { IfSome result (λ value. IsFlatOf cells.now value) }
    ensures none { result ≡ None → (value : Of) → IsFlatOf cells.now value → ⊥ }
{
    match cells {
        [Literal::Flag(flag)] => Some(Value::Bool(*flag)),
        [literal] => {
            let word = word_of(literal)?;
            Some(Value::Word(word))
        }
        _ => None,
    }
}

/// The value that an entry writes: one literal, or 2 to 64 cells of one width, as many as 2 to a power. `None` where it writes
/// none: a width isn't 1 to 32, a number doesn't fit its width, a cell is no word, two cells differ in width, or the number
/// of cells is another.
pub fn value_of(entry: &Entry) -> Option<Value>
    ensures some { IfSome result (λ value. IsValueOf entry.now value) }
    ensures none { result ≡ None → (value : Of) → IsValueOf entry.now value → ⊥ }
{
    if entry.row {
        let row = row_of(entry.cells.as_slice())?;
        Some(Value::Row(row))
    } else {
        flat_of(entry.cells.as_slice())
    }
}
