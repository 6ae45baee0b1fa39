//! The sort of an expression, and of each operation whose operands have given sorts; none, where a rule on sorts is broken.
ghost use Rattle.std.specs.Prelude.{◌≡◌};
ghost use Rattle.civl_tree.specs.rules.Sorts.{same_sort, is_truth, is_word, word_sort, common_sort, words_sort, truth_over, truths_sort, slice_fits, widen_fits, join_fits, one_sort, two_sort, pick_sort, get_sort, set_sort, fill_sort, slice_sort, widen_sort, join_sort, joined_sort, sort_of};
ghost use Rattle.civl_types.specs.Views.{scope_of};

use crate::view::{View, name_sort, old_sort};
use civl_tree::{Expr, One, Sort, Two};

pub(crate) fn same_sort(first: Sort, second: Sort) -> bool
    ensures { result ≡ same_sort first second }
{
    match first {
        Sort::Bool => match second {
            Sort::Bool => true,
            Sort::Word(_) | Sort::Row(_, _) => false,
        },
        Sort::Word(width) => match second {
            Sort::Word(other) => width == other,
            Sort::Bool | Sort::Row(_, _) => false,
        },
        Sort::Row(index, width) => match second {
            Sort::Row(other, cell) => index == other && width == cell,
            Sort::Bool | Sort::Word(_) => false,
        },
    }
}

fn is_truth(part: Option<Sort>) -> bool
    ensures { result ≡ is_truth part }
{
    match part {
        Some(Sort::Bool) => true,
        Some(Sort::Word(_)) | Some(Sort::Row(_, _)) | None => false,
    }
}

fn is_word(width: u32, part: Option<Sort>) -> bool
    ensures { result ≡ is_word width part }
{
    match part {
        Some(Sort::Word(other)) => width == other,
        Some(Sort::Bool) | Some(Sort::Row(_, _)) | None => false,
    }
}

fn word_sort(part: Option<Sort>) -> Option<Sort>
    ensures { result ≡ word_sort part }
{
    match part {
        Some(Sort::Word(width)) => Some(Sort::Word(width)),
        Some(Sort::Bool) | Some(Sort::Row(_, _)) | None => None,
    }
}

fn common_sort(first: Option<Sort>, second: Option<Sort>) -> Option<Sort>
    ensures { result ≡ common_sort first second }
{
    match first {
        None => None,
        Some(sort) => match second {
            None => None,
            Some(other) => {
                if same_sort(sort, other) {
                    Some(sort)
                } else {
                    None
                }
            }
        },
    }
}

fn words_sort(first: Option<Sort>, second: Option<Sort>) -> Option<Sort>
    ensures { result ≡ words_sort first second }
{
    word_sort(common_sort(first, second))
}

fn truth_over(parts: Option<Sort>) -> Option<Sort>
    ensures { result ≡ truth_over parts }
{
    match parts {
        None => None,
        Some(_) => Some(Sort::Bool),
    }
}

fn truths_sort(first: Option<Sort>, second: Option<Sort>) -> Option<Sort>
    ensures { result ≡ truths_sort first second }
{
    if is_truth(first) && is_truth(second) {
        Some(Sort::Bool)
    } else {
        None
    }
}

/// Whether the bits `high` down to `low` are bits of a word of this width.
pub(crate) fn slice_fits(width: u32, high: u32, low: u32) -> bool
    ensures { result ≡ slice_fits width high low }
{
    low <= high && high < width
}

/// Whether a word of this width can be made so much wider.
pub(crate) fn widen_fits(width: u32, wider: u32) -> bool
    ensures { result ≡ widen_fits width wider }
{
    width <= wider && wider <= 32
}

/// Whether words of these widths can stand side by side in a word.
pub(crate) fn join_fits(width: u32, other: u32) -> bool
    ensures { result ≡ join_fits width other }
{
    u64::from(width) + u64::from(other) <= 32
}

/// The sort of `!`, `~` or `-` of an operand of this sort, if it has one.
pub fn one_sort(op: One, part: Option<Sort>) -> Option<Sort>
    ensures { result ≡ one_sort op part }
{
    match op {
        One::Not => {
            if is_truth(part) {
                Some(Sort::Bool)
            } else {
                None
            }
        }
        One::Flip | One::Minus => word_sort(part),
    }
}

/// The sort of an operation with two operands of these sorts, if it has one.
pub fn two_sort(op: Two, first: Option<Sort>, second: Option<Sort>) -> Option<Sort>
    ensures { result ≡ two_sort op first second }
{
    match op {
        Two::Add
        | Two::Sub
        | Two::Mul
        | Two::BitAnd
        | Two::BitOr
        | Two::BitXor
        | Two::Shl
        | Two::Shr => words_sort(first, second),
        Two::Lt | Two::Le => truth_over(words_sort(first, second)),
        Two::Eq | Two::Ne => truth_over(common_sort(first, second)),
        Two::And | Two::Or | Two::Implies => truths_sort(first, second),
        Two::Udiv | Two::Urem | Two::Sar => words_sort(first, second),
        Two::Slt | Two::Sle => truth_over(words_sort(first, second)),
    }
}

/// The sort of `c ? a : b`, where its parts have these sorts: that of a and of b, which is one, where c is a bool.
pub fn pick_sort(test: Option<Sort>, first: Option<Sort>, second: Option<Sort>) -> Option<Sort>
    ensures { result ≡ pick_sort test first second }
{
    if is_truth(test) {
        common_sort(first, second)
    } else {
        None
    }
}

/// The sort of a cell that is read from a row.
pub fn get_sort(row: Option<Sort>, at: Option<Sort>) -> Option<Sort>
    ensures { result ≡ get_sort row at }
{
    match row {
        Some(Sort::Row(index, width)) => {
            if is_word(index, at) {
                Some(Sort::Word(width))
            } else {
                None
            }
        }
        Some(Sort::Bool) | Some(Sort::Word(_)) | None => None,
    }
}

/// The sort of a row with a cell written: that of the row, where the index and the cell fit it.
pub fn set_sort(row: Option<Sort>, at: Option<Sort>, cell: Option<Sort>) -> Option<Sort>
    ensures { result ≡ set_sort row at cell }
{
    match row {
        Some(Sort::Row(index, width)) => {
            if is_word(index, at) && is_word(width, cell) {
                Some(Sort::Row(index, width))
            } else {
                None
            }
        }
        Some(Sort::Bool) | Some(Sort::Word(_)) | None => None,
    }
}

/// The sort of a row whose cells are all this word, and whose index has so many bits.
pub fn fill_sort(index: u32, cell: Option<Sort>) -> Option<Sort>
    ensures { result ≡ fill_sort index cell }
{
    match cell {
        Some(Sort::Word(width)) => Some(Sort::Row(index, width)),
        Some(Sort::Bool) | Some(Sort::Row(_, _)) | None => None,
    }
}

/// The sort of the bits `high` down to `low` of a word, where it has them.
pub fn slice_sort(word: Option<Sort>, high: u32, low: u32) -> Option<Sort>
    ensures { result ≡ slice_sort word high low }
{
    match word {
        Some(Sort::Word(width)) => {
            if slice_fits(width, high, low) {
                Some(Sort::Word(high - low + 1))
            } else {
                None
            }
        }
        Some(Sort::Bool) | Some(Sort::Row(_, _)) | None => None,
    }
}

/// The sort of a word made so wide, where it isn't wider already.
pub fn widen_sort(word: Option<Sort>, wider: u32) -> Option<Sort>
    ensures { result ≡ widen_sort word wider }
{
    match word {
        Some(Sort::Word(width)) => {
            if widen_fits(width, wider) {
                Some(Sort::Word(wider))
            } else {
                None
            }
        }
        Some(Sort::Bool) | Some(Sort::Row(_, _)) | None => None,
    }
}

fn joined_sort(width: u32, second: Option<Sort>) -> Option<Sort>
    ensures { result ≡ joined_sort width second }
{
    match second {
        Some(Sort::Word(other)) => {
            if join_fits(width, other) {
                Some(Sort::Word(width + other))
            } else {
                None
            }
        }
        Some(Sort::Bool) | Some(Sort::Row(_, _)) | None => None,
    }
}

/// The sort of two words side by side, where they are no wider than a word can be.
pub fn join_sort(first: Option<Sort>, second: Option<Sort>) -> Option<Sort>
    ensures { result ≡ join_sort first second }
{
    match first {
        Some(Sort::Word(width)) => joined_sort(width, second),
        Some(Sort::Bool) | Some(Sort::Row(_, _)) | None => None,
    }
}

/// The sort of an expression at a place, where it has one.
pub fn sort_of(view: &View, expr: &Expr) -> Option<Sort>
    ensures { result ≡ sort_of (scope_of view.now) expr.now }
{
    match expr {
        Expr::Name(name) => name_sort(view, name),
        Expr::Literal(_, width) => Some(Sort::Word(*width)),
        Expr::True | Expr::False | Expr::Done | Expr::OldDone => Some(Sort::Bool),
        Expr::Old(name) => old_sort(view, name),
        Expr::One(op, part) => one_sort(*op, sort_of(view, part)),
        Expr::Two(op, first, second) => two_sort(*op, sort_of(view, first), sort_of(view, second)),
        Expr::Pick(test, first, second) => pick_sort(
            sort_of(view, test),
            sort_of(view, first),
            sort_of(view, second),
        ),
        Expr::Get(row, at) => get_sort(sort_of(view, row), sort_of(view, at)),
        Expr::Set(row, at, cell) => set_sort(
            sort_of(view, row),
            sort_of(view, at),
            sort_of(view, cell),
        ),
        Expr::Fill(index, cell) => fill_sort(*index, sort_of(view, cell)),
        Expr::Slice(word, high, low) => slice_sort(sort_of(view, word), *high, *low),
        Expr::Widen(word, wider) => widen_sort(sort_of(view, word), *wider),
        Expr::Join(first, second) => join_sort(sort_of(view, first), sort_of(view, second)),
    }
}
