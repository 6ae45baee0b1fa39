// A text is made where memory is there.

use civl_bits::{Row, Value, Word};
use civl_tree::Memory;
use civl_verdicts::models::value_text;

#[test]
fn a_row_has_its_text(rt: HostRuntime) -> Result<(), Memory> {
    let row = Row::fill(1, Word::of(8, 7)).set(Word::of(1, 1), Word::of(8, 255));
    let text = value_text(rt.alloc(), &Value::Row(row))?;
    let right: &[u8] = b"[7:8, 255:8]";
    assert!(rt; text.as_slice() == right);
    Ok(())
}
