// The table against all bools and all words of 1 to 3 bits: an operation of an operand with itself or with a constant is folded exactly where its result is one constant, or the operand.

use civl_bits::{Value, Word};
use civl_terms::foldings::{Folded, two};
use civl_tree::{Sort, Two};
use std::test::Fail;

const ON_BOOLS: [Two; 5] = [Two::And, Two::Or, Two::Implies, Two::Eq, Two::Ne];

const ON_WORDS: [Two; 17] = [
    Two::Add,
    Two::Sub,
    Two::Mul,
    Two::BitAnd,
    Two::BitOr,
    Two::BitXor,
    Two::Shl,
    Two::Shr,
    Two::Sar,
    Two::Lt,
    Two::Le,
    Two::Slt,
    Two::Sle,
    Two::Eq,
    Two::Ne,
    Two::Udiv,
    Two::Urem,
];

/// The other operand of an operation: the operand itself, or a constant, by its number, before or behind it.
#[derive(Clone, Copy, Debug, PartialEq, Eq)]
enum Other {
    Itself,
    Before(u32),
    After(u32),
}

/// How many values of the sort are tried: all, where a word has no more than 3 bits.
fn size(sort: Sort) -> u32 {
    match sort {
        Sort::Bool => 2,
        Sort::Word(width) => 1 << width.min(3),
        Sort::Row(_, _) => 0,
    }
}

/// The value of the sort with this number.
fn value(sort: Sort, number: u32) -> Value {
    let word = match sort {
        Sort::Word(width) => Word::new(width, number),
        _ => None,
    };
    match word {
        Some(word) => Value::Word(word),
        None => Value::Bool(number == 1),
    }
}

/// The operation's value where the operand has the value with this number.
fn result(op: Two, other: Other, sort: Sort, number: u32) -> Value {
    match other {
        Other::Itself => civl_firing::values::two(op, value(sort, number), value(sort, number)),
        Other::Before(constant) => civl_firing::values::two(
            op,
            value(sort, constant),
            value(sort, number),
        ),
        Other::After(constant) => civl_firing::values::two(
            op,
            value(sort, number),
            value(sort, constant),
        ),
    }
}

/// Whether the operation's result is one constant, or the operand.
fn is_constant_or_operand(op: Two, other: Other, sort: Sort) -> bool {
    let first = result(op, other, sort, 0);
    let mut constant = true;
    let mut operand = true;
    for number in 0..size(sort) {
        let found = result(op, other, sort, number);
        constant = constant && found.same(&first);
        operand = operand && found.same(&value(sort, number));
    }
    constant || operand
}

fn is_folded(op: Two, other: Other, sort: Sort) -> bool {
    let folded = match other {
        Other::Itself => two(op, sort, None, None, true),
        Other::Before(constant) => two(op, sort, Some(value(sort, constant)), None, false),
        Other::After(constant) => two(op, sort, None, Some(value(sort, constant)), false),
    };
    folded != Folded::New
}

/// Whether the operation is folded and shouldn't be, or the other way round.
fn is_wrong(op: Two, other: Other, sort: Sort) -> bool {
    is_folded(op, other, sort) != is_constant_or_operand(op, other, sort)
}

/// The first operation of the table, over operands of the sort, that is folded and shouldn't be, or the other way round.
fn first_wrong(ops: &[Two], sort: Sort) -> Option<(Two, Other)> {
    for op in ops {
        if is_wrong(*op, Other::Itself, sort) {
            return Some((*op, Other::Itself));
        }
        for number in 0..size(sort) {
            if is_wrong(*op, Other::Before(number), sort) {
                return Some((*op, Other::Before(number)));
            }
            if is_wrong(*op, Other::After(number), sort) {
                return Some((*op, Other::After(number)));
            }
        }
    }
    None
}

#[test]
fn nothing_else_is_folded(rt: HostRuntime) -> Result<(), Fail> {
    assert_eq!(rt; first_wrong(ON_BOOLS.as_slice(), Sort::Bool), None);
    for width in 1..4 {
        assert_eq!(rt; first_wrong(ON_WORDS.as_slice(), Sort::Word(width)), None);
    }
    Ok(())
}
