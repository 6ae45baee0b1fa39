// The sorts of operations whose sorts fit.
ghost use Rattle.std.specs.Prelude.{◌≡◌, Some, IsSome};
ghost use Rattle.civl_tree.specs.rules.Sorts.{one_sort, two_sort, get_sort, fill_sort, slice_sort, widen_sort, join_sort};

use civl_tree::{One, Sort, Two};

pub(crate) fn of_one(op: One, a: Sort) -> Sort
    requires { IsSome (one_sort op (Some a)) }
    ensures { one_sort op (Some a) ≡ Some result }
{
    match op {
        One::Not => Sort::Bool,
        One::Flip | One::Minus => a,
    }
}

pub(crate) fn of_two(op: Two, a: Sort, b: Sort) -> Sort
    requires { IsSome (two_sort op (Some a) (Some b)) }
    ensures { two_sort op (Some a) (Some b) ≡ Some result }
{
    match op {
        Two::Lt | Two::Le | Two::Slt | Two::Sle => Sort::Bool,
        Two::Eq | Two::Ne => Sort::Bool,
        Two::And | Two::Or | Two::Implies => Sort::Bool,
        _ => a,
    }
}

pub(crate) fn of_get(row: Sort, at: Sort) -> Sort
    requires { IsSome (get_sort (Some row) (Some at)) }
    ensures { get_sort (Some row) (Some at) ≡ Some result }
{
    match row {
        Sort::Row(_, width) => Sort::Word(width),
        _ => at,
    }
}

pub(crate) fn of_fill(index: u32, cell: Sort) -> Sort
    requires { IsSome (fill_sort index (Some cell)) }
    ensures { fill_sort index (Some cell) ≡ Some result }
{
    match cell {
        Sort::Word(width) => Sort::Row(index, width),
        _ => cell,
    }
}

pub(crate) fn of_slice(a: Sort, high: u32, low: u32) -> Sort
    requires { IsSome (slice_sort (Some a) high low) }
    ensures { slice_sort (Some a) high low ≡ Some result }
{
    match a {
        Sort::Word(width) if low <= high && high < width => Sort::Word(high - low + 1),
        _ => a,
    }
}

pub(crate) fn of_widen(a: Sort, width: u32) -> Sort
    requires { IsSome (widen_sort (Some a) width) }
    ensures { widen_sort (Some a) width ≡ Some result }
{
    match a {
        Sort::Word(_) => Sort::Word(width),
        _ => a,
    }
}

pub(crate) fn of_join(a: Sort, b: Sort) -> Sort
    requires { IsSome (join_sort (Some a) (Some b)) }
    ensures { join_sort (Some a) (Some b) ≡ Some result }
{
    match a {
        Sort::Word(width) => match b {
            Sort::Word(other) if width <= 32 && other <= 32 => Sort::Word(width + other),
            _ => a,
        },
        _ => a,
    }
}
