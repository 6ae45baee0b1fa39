// Whether a part of an expression breaks a rule by itself.
ghost use Rattle.std.specs.Prelude.{◌≡◌, ◌≤◌, ◌^◌};
ghost use Rattle.civl_tree.specs.declared.expr.Expr.{out-Expr};
ghost use Rattle.civl_tree.specs.rules.Exprs.{is_index, is_width, join_in_range, joined_in_range, literal_fits, slice_in_range, widen_in_range};
ghost use Rattle.civl_subjects.specs.Places.{form_index, form_unfit, form_unknown, has_sort, operands_sorted, part_breaks, part_unsorted};
ghost use Rattle.civl_types.specs.Views.{scope_of};

use crate::expr_rule::ExprRule;
use civl_tree::{Expr, Sort};
use civl_types::sorts::sort_of;
use civl_types::view::{View, name_sort, old_sort};

/// Whether a word or a cell may have so many bits.
pub(crate) fn is_width(width: u32) -> bool
    ensures { result ≡ is_width width }
{
    1 <= width && width <= 32
}

/// 2 to a number up to 32.
pub(crate) fn power(exponent: u32) -> u64
    requires { exponent ≤ 32 }
    ensures { result ≡ 2 ^ exponent }
{
    1 << exponent
}

/// Whether a literal fits its width.
fn literal_fits(value: u32, width: u32) -> bool
    ensures { result ≡ literal_fits value width }
{
    if is_width(width) {
        u64::from(value) < power(width)
    } else {
        false
    }
}

/// Whether a slice of a part of this sort keeps its range.
fn slice_in_range(word: Option<Sort>, high: u32, low: u32) -> bool
    ensures { result ≡ slice_in_range word high low }
{
    match word {
        Some(Sort::Word(width)) => low <= high && high < width,
        Some(Sort::Bool) | Some(Sort::Row(_, _)) | None => true,
    }
}

/// Whether a part of this sort may be made so wide.
fn widen_in_range(word: Option<Sort>, wider: u32) -> bool
    ensures { result ≡ widen_in_range word wider }
{
    match word {
        Some(Sort::Word(width)) => width <= wider && wider <= 32,
        Some(Sort::Bool) | Some(Sort::Row(_, _)) | None => true,
    }
}

fn joined_in_range(width: u32, second: Option<Sort>) -> bool
    ensures { result ≡ joined_in_range width second }
{
    match second {
        Some(Sort::Word(other)) => u64::from(width) + u64::from(other) <= 32,
        Some(Sort::Bool) | Some(Sort::Row(_, _)) | None => true,
    }
}

/// Whether parts of these sorts may stand side by side.
fn join_in_range(first: Option<Sort>, second: Option<Sort>) -> bool
    ensures { result ≡ join_in_range first second }
{
    match first {
        Some(Sort::Word(width)) => joined_in_range(width, second),
        Some(Sort::Bool) | Some(Sort::Row(_, _)) | None => true,
    }
}

/// Whether a row's index may have so many bits.
pub(crate) fn is_index(index: u32) -> bool
    ensures { result ≡ is_index index }
{
    1 <= index && index <= 6
}

/// Whether a part is a name that isn't in scope.
fn is_unknown(view: &View, part: &Expr) -> bool
    ensures { result ≡ form_unknown (scope_of view.now) (out-Expr part.now) }
{
    match part {
        Expr::Name(name) => name_sort(view, name).is_none(),
        Expr::Old(name) => old_sort(view, name).is_none(),
        Expr::Literal(_, _) | Expr::True | Expr::False | Expr::Done | Expr::OldDone => false,
        Expr::One(_, _) | Expr::Two(_, _, _) | Expr::Pick(_, _, _) | Expr::Get(_, _) => false,
        Expr::Set(_, _, _) | Expr::Fill(_, _) | Expr::Slice(_, _, _) => false,
        Expr::Widen(_, _) | Expr::Join(_, _) => false,
    }
}

/// Whether a part is a literal that doesn't fit its width, or leaves its range.
fn is_unfit(view: &View, part: &Expr) -> bool
    ensures { result ≡ form_unfit (scope_of view.now) (out-Expr part.now) }
{
    match part {
        Expr::Literal(value, width) => !literal_fits(*value, *width),
        Expr::Slice(word, high, low) => !slice_in_range(sort_of(view, word), *high, *low),
        Expr::Widen(word, wider) => !widen_in_range(sort_of(view, word), *wider),
        Expr::Join(first, second) => !join_in_range(sort_of(view, first), sort_of(view, second)),
        Expr::Name(_) | Expr::Old(_) => false,
        Expr::True | Expr::False | Expr::Done | Expr::OldDone => false,
        Expr::One(_, _) | Expr::Two(_, _, _) | Expr::Pick(_, _, _) | Expr::Get(_, _) => false,
        Expr::Set(_, _, _) | Expr::Fill(_, _) => false,
    }
}

/// Whether an expression has a sort.
fn has_sort(view: &View, expr: &Expr) -> bool
    ensures { result ≡ has_sort (scope_of view.now) expr.now }
{
    sort_of(view, expr).is_some()
}

/// Whether all operands of a part have a sort.
fn operands_sorted(view: &View, part: &Expr) -> bool
    ensures { result ≡ operands_sorted (scope_of view.now) (out-Expr part.now) }
{
    match part {
        Expr::One(_, part) => has_sort(view, part),
        Expr::Two(_, first, second) => has_sort(view, first) && has_sort(view, second),
        Expr::Pick(test, first, second) => {
            has_sort(view, test) && has_sort(view, first) && has_sort(view, second)
        }
        Expr::Get(row, at) => has_sort(view, row) && has_sort(view, at),
        Expr::Set(row, at, cell) => {
            has_sort(view, row) && has_sort(view, at) && has_sort(view, cell)
        }
        Expr::Fill(_, cell) => has_sort(view, cell),
        Expr::Slice(word, _, _) => has_sort(view, word),
        Expr::Widen(word, _) => has_sort(view, word),
        Expr::Join(first, second) => has_sort(view, first) && has_sort(view, second),
        Expr::Name(_) | Expr::Old(_) | Expr::Literal(_, _) => true,
        Expr::True | Expr::False | Expr::Done | Expr::OldDone => true,
    }
}

/// Whether a part has no sort, and all its operands have one.
fn is_unsorted(view: &View, part: &Expr) -> bool
    ensures { result ≡ part_unsorted (scope_of view.now) part.now }
{
    !has_sort(view, part) && operands_sorted(view, part)
}

/// Whether a part is a row whose index is out of range.
fn is_index_off(part: &Expr) -> bool
    ensures { result ≡ form_index (out-Expr part.now) }
{
    match part {
        Expr::Fill(index, _) => !is_index(*index),
        Expr::Name(_) | Expr::Old(_) | Expr::Literal(_, _) => false,
        Expr::True | Expr::False | Expr::Done | Expr::OldDone => false,
        Expr::One(_, _) | Expr::Two(_, _, _) | Expr::Pick(_, _, _) | Expr::Get(_, _) => false,
        Expr::Set(_, _, _) | Expr::Slice(_, _, _) | Expr::Widen(_, _) | Expr::Join(_, _) => false,
    }
}

/// Whether a part breaks a rule by itself.
pub(crate) fn part_breaks(rule: ExprRule, view: &View, part: &Expr) -> bool
    ensures { result ≡ part_breaks rule (scope_of view.now) part.now }
{
    match rule {
        ExprRule::Unknown => is_unknown(view, part),
        ExprRule::Width => is_unfit(view, part),
        ExprRule::Sorts => is_unsorted(view, part),
        ExprRule::Index => is_index_off(part),
    }
}
