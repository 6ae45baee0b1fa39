// All lists of values of some sorts, by their numbers.

use civl_bits::{Value, Word};
use civl_tree::{List, Sort};
use std::alloc::Global as Alloc;
use std::test::Fail;

/// How many values a sort has, where they are few.
fn size(sort: Sort) -> Option<u32> {
    match sort {
        Sort::Bool => Some(2),
        Sort::Word(1) => Some(2),
        Sort::Word(2) => Some(4),
        Sort::Word(3) => Some(8),
        Sort::Word(4) => Some(16),
        _ => None,
    }
}

/// How many lists of values these sorts have, where they are at most 4,096.
pub(crate) fn count(sorts: &[Sort]) -> Option<u32> {
    let mut count: u32 = 1;
    for sort in sorts {
        let size = size(*sort)?;
        count = count.checked_mul(size)?;
        if count > 4096 {
            return None;
        }
    }
    Some(count)
}

/// The value with this number of a sort.
fn value(sort: Sort, number: u32) -> Value {
    match sort {
        Sort::Word(width) => match Word::new(width, number) {
            Some(word) => Value::Word(word),
            None => Value::Bool(false),
        },
        _ => Value::Bool(number == 1),
    }
}

/// The list of values with this number; the first of them changes the fastest.
pub(crate) fn valuation(alloc: Alloc, sorts: &[Sort], number: u32) -> Result<List<Value>, Fail> {
    let mut values = Vec::new(alloc);
    let mut left = number;
    for sort in sorts {
        let size = size(*sort).unwrap_or(1).max(1);
        values.push(value(*sort, left % size))?;
        left = left / size;
    }
    Ok(List::from_vec(values))
}
