// What the rules ask of one expression beside its sort.
ghost use Rattle.std.specs.Prelude.{◌≡◌, ◌^◌, ◌≤◌};
ghost use Rattle.civl_tree.specs.rules.Exprs.{is_width, literal_fits, slice_in_range, widen_in_range, joined_in_range, join_in_range, widths_fit, is_index, indices_fit};
ghost use Rattle.civl_types.specs.Views.{scope_of};
ghost use Rattle.civl_types.specs.inner.Judging.{judge, judge_one, judge_two, judge_pick, judge_get, judge_set, judge_fill, judge_slice, judge_widen, judge_join};

use crate::sorts::{
    fill_sort, get_sort, join_fits, join_sort, one_sort, pick_sort, set_sort, slice_fits,
    slice_sort, two_sort, widen_fits, widen_sort,
};
use crate::view::{View, name_sort, old_sort};
use civl_tree::{Expr, One, Sort, Two};

/// Whether a word or a cell may have so many bits.
pub(crate) fn is_width(width: u32) -> bool
    ensures { result ≡ is_width width }
{
    1 <= width && width <= 32
}

/// 2 to a number up to 32.
pub(crate) fn power(exponent: u32) -> u64
    requires { exponent ≤ 32 }
    ensures { result ≡ 2 ^ exponent }
{
    1 << exponent
}

fn literal_fits(value: u32, width: u32) -> bool
    ensures { result ≡ literal_fits value width }
{
    if is_width(width) {
        u64::from(value) < power(width)
    } else {
        false
    }
}

fn slice_in_range(word: Option<Sort>, high: u32, low: u32) -> bool
    ensures { result ≡ slice_in_range word high low }
{
    match word {
        Some(Sort::Word(width)) => slice_fits(width, high, low),
        Some(Sort::Bool) | Some(Sort::Row(_, _)) | None => true,
    }
}

fn widen_in_range(word: Option<Sort>, wider: u32) -> bool
    ensures { result ≡ widen_in_range word wider }
{
    match word {
        Some(Sort::Word(width)) => widen_fits(width, wider),
        Some(Sort::Bool) | Some(Sort::Row(_, _)) | None => true,
    }
}

fn joined_in_range(width: u32, second: Option<Sort>) -> bool
    ensures { result ≡ joined_in_range width second }
{
    match second {
        Some(Sort::Word(other)) => join_fits(width, other),
        Some(Sort::Bool) | Some(Sort::Row(_, _)) | None => true,
    }
}

fn join_in_range(first: Option<Sort>, second: Option<Sort>) -> bool
    ensures { result ≡ join_in_range first second }
{
    match first {
        Some(Sort::Word(width)) => joined_in_range(width, second),
        Some(Sort::Bool) | Some(Sort::Row(_, _)) | None => true,
    }
}

/// What is found of an expression: its sort, where it has one, and whether its literals fit their widths and its
/// `slice`, `widen` and `join` keep their ranges.
#[derive(Clone, Copy)]
pub(crate) struct Judged {
    pub sort: Option<Sort>,
    pub fits: bool,
}

fn judgement(sort: Option<Sort>, fits: bool) -> Judged
    ensures { result ≡ record { sort = sort; fits = fits } }
{
    Judged { sort, fits }
}

/// The sort of an expression at a place, and whether its widths fit.
pub(crate) fn judge(view: &View, expr: &Expr) -> Judged
    ensures { result ≡ judge (scope_of view.now) expr.now }
{
    match expr {
        Expr::Name(name) => judgement(name_sort(view, name), true),
        Expr::Literal(value, width) => judgement(
            Some(Sort::Word(*width)),
            literal_fits(*value, *width),
        ),
        Expr::True | Expr::False | Expr::Done | Expr::OldDone => judgement(Some(Sort::Bool), true),
        Expr::Old(name) => judgement(old_sort(view, name), true),
        Expr::One(op, part) => judge_one(*op, judge(view, part)),
        Expr::Two(op, first, second) => judge_two(*op, judge(view, first), judge(view, second)),
        Expr::Pick(test, first, second) => judge_pick(
            judge(view, test),
            judge(view, first),
            judge(view, second),
        ),
        Expr::Get(row, at) => judge_get(judge(view, row), judge(view, at)),
        Expr::Set(row, at, cell) => judge_set(judge(view, row), judge(view, at), judge(view, cell)),
        Expr::Fill(index, cell) => judge_fill(*index, judge(view, cell)),
        Expr::Slice(word, high, low) => judge_slice(judge(view, word), *high, *low),
        Expr::Widen(word, wider) => judge_widen(judge(view, word), *wider),
        Expr::Join(first, second) => judge_join(judge(view, first), judge(view, second)),
    }
}

fn judge_one(op: One, part: Judged) -> Judged
    ensures { result ≡ judge_one op part }
{
    judgement(one_sort(op, part.sort), part.fits)
}

fn judge_two(op: Two, first: Judged, second: Judged) -> Judged
    ensures { result ≡ judge_two op first second }
{
    judgement(
        two_sort(op, first.sort, second.sort),
        first.fits && second.fits,
    )
}

fn judge_pick(test: Judged, first: Judged, second: Judged) -> Judged
    ensures { result ≡ judge_pick test first second }
{
    judgement(
        pick_sort(test.sort, first.sort, second.sort),
        test.fits && (first.fits && second.fits),
    )
}

fn judge_get(row: Judged, at: Judged) -> Judged
    ensures { result ≡ judge_get row at }
{
    judgement(get_sort(row.sort, at.sort), row.fits && at.fits)
}

fn judge_set(row: Judged, at: Judged, cell: Judged) -> Judged
    ensures { result ≡ judge_set row at cell }
{
    judgement(
        set_sort(row.sort, at.sort, cell.sort),
        row.fits && (at.fits && cell.fits),
    )
}

fn judge_fill(index: u32, cell: Judged) -> Judged
    ensures { result ≡ judge_fill index cell }
{
    judgement(fill_sort(index, cell.sort), cell.fits)
}

fn judge_slice(word: Judged, high: u32, low: u32) -> Judged
    ensures { result ≡ judge_slice word high low }
{
    judgement(
        slice_sort(word.sort, high, low),
        word.fits && slice_in_range(word.sort, high, low),
    )
}

fn judge_widen(word: Judged, wider: u32) -> Judged
    ensures { result ≡ judge_widen word wider }
{
    judgement(
        widen_sort(word.sort, wider),
        word.fits && widen_in_range(word.sort, wider),
    )
}

fn judge_join(first: Judged, second: Judged) -> Judged
    ensures { result ≡ judge_join first second }
{
    judgement(
        join_sort(first.sort, second.sort),
        first.fits && (second.fits && join_in_range(first.sort, second.sort)),
    )
}

/// Whether a row's index may have so many bits.
pub(crate) fn is_index(index: u32) -> bool
    ensures { result ≡ is_index index }
{
    1 <= index && index <= 6
}

/// Whether each `fill` of an expression makes a row whose index is in range.
pub(crate) fn indices_fit(expr: &Expr) -> bool
    ensures { result ≡ indices_fit expr.now }
{
    match expr {
        Expr::Name(_)
        | Expr::Old(_)
        | Expr::Literal(_, _)
        | Expr::True
        | Expr::False
        | Expr::Done
        | Expr::OldDone => true,
        Expr::One(_, part) => indices_fit(part),
        Expr::Two(_, first, second) => indices_fit(first) && indices_fit(second),
        Expr::Pick(test, first, second) => indices_fit(test)
            && indices_fit(first)
            && indices_fit(second),
        Expr::Get(row, at) => indices_fit(row) && indices_fit(at),
        Expr::Set(row, at, cell) => indices_fit(row) && indices_fit(at) && indices_fit(cell),
        Expr::Fill(index, cell) => is_index(*index) && indices_fit(cell),
        Expr::Slice(word, _, _) => indices_fit(word),
        Expr::Widen(word, _) => indices_fit(word),
        Expr::Join(first, second) => indices_fit(first) && indices_fit(second),
    }
}

/// Whether the literals of an expression fit their widths, and its `slice`, `widen` and `join` keep their ranges.
pub(crate) fn widths_fit(view: &View, expr: &Expr) -> bool
    ensures { result ≡ widths_fit (scope_of view.now) expr.now }
{
    judge(view, expr).fits
}
