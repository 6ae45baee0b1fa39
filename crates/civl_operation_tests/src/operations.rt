// The operations, and the terms that they make.
ghost use Rattle.std.specs.Prelude.{◌≡◌, ◌<◌, length, Some, IfSome};
ghost use Rattle.civl_terms.specs.Graphs.{sort_at};

use civl_terms::{Id, Terms};
use civl_tree::{One, Sort, Two};
use civl_types::sorts::{
    fill_sort, get_sort, join_sort, one_sort, pick_sort, set_sort, slice_sort, two_sort, widen_sort,
};

/// An operation of expressions, with the numbers that its text has, and without its operands.
#[derive(Clone, Copy)]
pub(crate) enum Operation {
    One(One),
    Two(Two),
    Pick,
    Get,
    Set,
    Fill(u32),
    Slice(u32, u32),
    Widen(u32),
    Join,
}

/// The sort of an operand, where words have some width: an index has one bit, and a row two cells, which are words.
#[derive(Clone, Copy)]
pub(crate) enum Operand {
    Bool,
    Index,
    Word,
    Row,
}

const BOOL: &[Operand] = &[Operand::Bool];

const BOOLS: &[Operand] = &[Operand::Bool, Operand::Bool];

const THREE_BOOLS: &[Operand] = &[Operand::Bool, Operand::Bool, Operand::Bool];

const WORD: &[Operand] = &[Operand::Word];

const WORDS: &[Operand] = &[Operand::Word, Operand::Word];

const ROWS: &[Operand] = &[Operand::Row, Operand::Row];

const CHOSEN_WORDS: &[Operand] = &[Operand::Bool, Operand::Word, Operand::Word];

const CHOSEN_ROWS: &[Operand] = &[Operand::Bool, Operand::Row, Operand::Row];

const ROW_AT: &[Operand] = &[Operand::Row, Operand::Index];

const ROW_AT_WITH: &[Operand] = &[Operand::Row, Operand::Index, Operand::Word];

/// The widths of words.
const WIDTHS: &[u32] = &[1, 3];

/// A text of an operation, the operation, its operands, and the widths of the words over which it is tried.
pub(crate) type Row = (&'static str, Operation, &'static [Operand], &'static [u32]);

/// The operations whose operands are bools.
pub(crate) const OF_BOOLS: [Row; 7] = [
    ("(! p)", Operation::One(One::Not), BOOL, &[1]),
    ("(p && q)", Operation::Two(Two::And), BOOLS, &[1]),
    ("(p || q)", Operation::Two(Two::Or), BOOLS, &[1]),
    ("(p => q)", Operation::Two(Two::Implies), BOOLS, &[1]),
    ("(p == q)", Operation::Two(Two::Eq), BOOLS, &[1]),
    ("(p != q)", Operation::Two(Two::Ne), BOOLS, &[1]),
    ("(p ? q : o)", Operation::Pick, THREE_BOOLS, &[1]),
];

/// The operations on words and on rows of words.
pub(crate) const OF_WORDS: [Row; 37] = [
    ("(~ a)", Operation::One(One::Flip), WORD, WIDTHS),
    ("(- a)", Operation::One(One::Minus), WORD, WIDTHS),
    ("(a + b)", Operation::Two(Two::Add), WORDS, WIDTHS),
    ("(a - b)", Operation::Two(Two::Sub), WORDS, WIDTHS),
    ("(a * b)", Operation::Two(Two::Mul), WORDS, WIDTHS),
    ("(a udiv b)", Operation::Two(Two::Udiv), WORDS, WIDTHS),
    ("(a urem b)", Operation::Two(Two::Urem), WORDS, WIDTHS),
    ("(a & b)", Operation::Two(Two::BitAnd), WORDS, WIDTHS),
    ("(a | b)", Operation::Two(Two::BitOr), WORDS, WIDTHS),
    ("(a ^ b)", Operation::Two(Two::BitXor), WORDS, WIDTHS),
    ("(a << b)", Operation::Two(Two::Shl), WORDS, WIDTHS),
    ("(a >> b)", Operation::Two(Two::Shr), WORDS, WIDTHS),
    ("(a sar b)", Operation::Two(Two::Sar), WORDS, WIDTHS),
    ("(a < b)", Operation::Two(Two::Lt), WORDS, WIDTHS),
    ("(a <= b)", Operation::Two(Two::Le), WORDS, WIDTHS),
    ("(a slt b)", Operation::Two(Two::Slt), WORDS, WIDTHS),
    ("(a sle b)", Operation::Two(Two::Sle), WORDS, WIDTHS),
    ("(a == b)", Operation::Two(Two::Eq), WORDS, WIDTHS),
    ("(a != b)", Operation::Two(Two::Ne), WORDS, WIDTHS),
    ("(p ? a : b)", Operation::Pick, CHOSEN_WORDS, WIDTHS),
    ("slice(a, 0, 0)", Operation::Slice(0, 0), WORD, WIDTHS),
    ("slice(a, 1, 0)", Operation::Slice(1, 0), WORD, &[3]),
    ("slice(a, 2, 0)", Operation::Slice(2, 0), WORD, &[3]),
    ("slice(a, 1, 1)", Operation::Slice(1, 1), WORD, &[3]),
    ("slice(a, 2, 1)", Operation::Slice(2, 1), WORD, &[3]),
    ("slice(a, 2, 2)", Operation::Slice(2, 2), WORD, &[3]),
    ("widen(a, 3)", Operation::Widen(3), WORD, WIDTHS),
    ("widen(a, 5)", Operation::Widen(5), WORD, WIDTHS),
    ("widen(a, 32)", Operation::Widen(32), WORD, WIDTHS),
    ("join(a, b)", Operation::Join, WORDS, WIDTHS),
    ("get(r, i)", Operation::Get, ROW_AT, WIDTHS),
    ("set(r, i, a)", Operation::Set, ROW_AT_WITH, WIDTHS),
    ("fill(1, a)", Operation::Fill(1), WORD, WIDTHS),
    ("fill(2, a)", Operation::Fill(2), WORD, WIDTHS),
    ("(r == s)", Operation::Two(Two::Eq), ROWS, WIDTHS),
    ("(r != s)", Operation::Two(Two::Ne), ROWS, WIDTHS),
    ("(p ? r : s)", Operation::Pick, CHOSEN_ROWS, &[1]),
];

/// The sort of a term, if it is one of the graph.
fn sort_at(terms: &Terms, id: Id) -> Option<Sort>
    ensures within { IfSome result (λ _. id < length terms.now) }
    ensures is { IfSome result (λ sort. sort_at terms.now id ≡ Some sort) }
{
    if id < terms.len() {
        Some(terms.sort(id))
    } else {
        None
    }
}

fn one(terms: &mut Terms, op: One, a: Id) -> Option<Id> {
    let sort = sort_at(terms, a)?;
    let _fits = one_sort(op, Some(sort))?;
    terms.one(op, a).ok()
}

pub(crate) fn two(terms: &mut Terms, op: Two, a: Id, b: Id) -> Option<Id> {
    let first = sort_at(terms, a)?;
    let second = sort_at(terms, b)?;
    let _fits = two_sort(op, Some(first), Some(second))?;
    terms.two(op, a, b).ok()
}

fn pick(terms: &mut Terms, c: Id, a: Id, b: Id) -> Option<Id> {
    let test = sort_at(terms, c)?;
    let first = sort_at(terms, a)?;
    let second = sort_at(terms, b)?;
    let _fits = pick_sort(Some(test), Some(first), Some(second))?;
    terms.pick(c, a, b).ok()
}

fn get(terms: &mut Terms, row: Id, at: Id) -> Option<Id> {
    let cells = sort_at(terms, row)?;
    let index = sort_at(terms, at)?;
    let _fits = get_sort(Some(cells), Some(index))?;
    terms.get(row, at).ok()
}

fn set(terms: &mut Terms, row: Id, at: Id, cell: Id) -> Option<Id> {
    let cells = sort_at(terms, row)?;
    let index = sort_at(terms, at)?;
    let word = sort_at(terms, cell)?;
    let _fits = set_sort(Some(cells), Some(index), Some(word))?;
    terms.set(row, at, cell).ok()
}

fn fill(terms: &mut Terms, index: u32, cell: Id) -> Option<Id> {
    let word = sort_at(terms, cell)?;
    let _fits = fill_sort(index, Some(word))?;
    if index == 0 || index > 6 {
        return None;
    }
    terms.fill(index, cell).ok()
}

fn slice(terms: &mut Terms, a: Id, high: u32, low: u32) -> Option<Id> {
    let word = sort_at(terms, a)?;
    let _fits = slice_sort(Some(word), high, low)?;
    terms.slice(a, high, low).ok()
}

fn widen(terms: &mut Terms, a: Id, width: u32) -> Option<Id> {
    let word = sort_at(terms, a)?;
    let _fits = widen_sort(Some(word), width)?;
    terms.widen(a, width).ok()
}

fn join(terms: &mut Terms, a: Id, b: Id) -> Option<Id> {
    let first = sort_at(terms, a)?;
    let second = sort_at(terms, b)?;
    let _fits = join_sort(Some(first), Some(second))?;
    terms.join(a, b).ok()
}

/// The term of an operation with these operands, where their sorts fit.
pub(crate) fn applied(terms: &mut Terms, operation: Operation, operands: &[Id]) -> Option<Id> {
    let first = *operands.get(0)?;
    match operation {
        Operation::One(op) => one(terms, op, first),
        Operation::Two(op) => two(terms, op, first, *operands.get(1)?),
        Operation::Pick => pick(terms, first, *operands.get(1)?, *operands.get(2)?),
        Operation::Get => get(terms, first, *operands.get(1)?),
        Operation::Set => set(terms, first, *operands.get(1)?, *operands.get(2)?),
        Operation::Fill(index) => fill(terms, index, first),
        Operation::Slice(high, low) => slice(terms, first, high, low),
        Operation::Widen(width) => widen(terms, first, width),
        Operation::Join => join(terms, first, *operands.get(1)?),
    }
}
