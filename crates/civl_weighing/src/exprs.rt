// The weights of expressions, each with its sort in one walk.
ghost use Rattle.std.specs.Prelude.{◌≡◌};
ghost use Rattle.civl_tree.specs.declared.expr.Expr.TheVariants as expr;
ghost use Rattle.civl_tree.specs.rules.StoreSize.{bits_of};
ghost use Rattle.civl_firing.specs.values.Weights.{bits_in, one_weight, two_weight, set_weight};
ghost use Rattle.civl_types.specs.Views.{scope_of};
ghost use Rattle.civl_conditions.specs.Weights.{weights_of};
ghost use Rattle.civl_firing.specs.values.Weights.{weight_of};
ghost use Rattle.civl_weighing.specs.Weighing.{Weighs};
ghost use Rattle.civl_weighing.specs.Weighed.{IsOwn, IsWeighed, OneWeighed, TwoWeighed, PickWeighed, GetWeighed, SetWeighed, FillWeighed, SliceWeighed, WidenWeighed, JoinWeighed};

use crate::weight::Weight;
use civl_tree::{Expr, One, Sort, Two};
use civl_types::sorts::{
    fill_sort, get_sort, join_sort, one_sort, pick_sort, set_sort, slice_sort, two_sort, widen_sort,
};
use civl_types::view::{View, name_sort, old_sort};

/// The sort of an expression, where it has one, and its weight.
#[derive(Clone, Copy)]
pub struct Weighed {
    pub sort: Option<Sort>,
    pub weight: Weight,
}

// ---- own weights

/// The bits of a value of this sort.
pub fn bits_of(sort: Sort) -> Weight
    ensures { Weighs result (bits_of sort) }
{
    match sort {
        Sort::Bool => Weight::of(1),
        Sort::Word(width) => Weight::of(width),
        Sort::Row(index, width) => Weight::of(width).times(Weight::power(index)),
    }
}

/// The bits of a value of this sort, or nothing where there is none.
pub fn bits_in(sort: Option<Sort>) -> Weight
    ensures { Weighs result (bits_in sort) }
{
    match sort {
        Some(sort) => bits_of(sort),
        None => Weight::of(0),
    }
}

fn one_own(op: One, bits: Weight) -> Weight
    ensures { IsOwn (one_weight op) bits result }
{
    match op {
        One::Not => Weight::of(1),
        One::Flip => bits,
        One::Minus => Weight::of(2).times(bits),
    }
}

fn two_own(op: Two, bits: Weight) -> Weight
    ensures { IsOwn (two_weight op) bits result }
{
    match op {
        Two::And | Two::Or | Two::Implies => Weight::of(1),
        Two::BitAnd | Two::BitOr | Two::BitXor | Two::Eq | Two::Ne => bits,
        Two::Add | Two::Sub | Two::Lt | Two::Le | Two::Slt | Two::Sle => Weight::of(2).times(bits),
        Two::Shl | Two::Shr | Two::Sar => Weight::of(6).times(bits),
        Two::Mul => Weight::of(2).times(bits).times(bits),
        Two::Udiv | Two::Urem => Weight::of(4).times(bits).times(bits),
    }
}

fn set_own_of(sort: Sort) -> Weight
    ensures { Weighs result (set_weight (Some sort)) }
{
    match sort {
        Sort::Row(index, width) => Weight::of(width)
            .plus(Weight::of(index))
            .times(Weight::power(index)),
        Sort::Bool | Sort::Word(_) => Weight::of(0),
    }
}

/// The own weight of a write to a row of this sort.
fn set_own(row: Option<Sort>) -> Weight
    ensures { Weighs result (set_weight row) }
{
    match row {
        Some(sort) => set_own_of(sort),
        None => Weight::of(0),
    }
}

// ---- operations over what is found of their parts

fn leaf(sort: Option<Sort>) -> Weighed
    ensures sort { result.sort ≡ sort }
    ensures weight { Weighs result.weight 1 }
{
    Weighed {
        sort,
        weight: Weight::of(1),
    }
}

fn weigh_one(op: One, part: Weighed) -> Weighed
    ensures { OneWeighed op part result }
{
    Weighed {
        sort: one_sort(op, part.sort),
        weight: one_own(op, bits_in(part.sort)).plus(part.weight),
    }
}

fn weigh_two(op: Two, first: Weighed, second: Weighed) -> Weighed
    ensures { TwoWeighed op first second result }
{
    Weighed {
        sort: two_sort(op, first.sort, second.sort),
        weight: two_own(op, bits_in(first.sort))
            .plus(first.weight)
            .plus(second.weight),
    }
}

fn weigh_pick(test: Weighed, first: Weighed, second: Weighed) -> Weighed
    ensures { PickWeighed test first second result }
{
    Weighed {
        sort: pick_sort(test.sort, first.sort, second.sort),
        weight: bits_in(first.sort)
            .plus(test.weight)
            .plus(first.weight)
            .plus(second.weight),
    }
}

fn weigh_get(row: Weighed, at: Weighed) -> Weighed
    ensures { GetWeighed row at result }
{
    Weighed {
        sort: get_sort(row.sort, at.sort),
        weight: bits_in(row.sort).plus(row.weight).plus(at.weight),
    }
}

fn weigh_set(row: Weighed, at: Weighed, cell: Weighed) -> Weighed
    ensures { SetWeighed row at cell result }
{
    Weighed {
        sort: set_sort(row.sort, at.sort, cell.sort),
        weight: set_own(row.sort)
            .plus(row.weight)
            .plus(at.weight)
            .plus(cell.weight),
    }
}

fn weigh_fill(index: u32, cell: Weighed) -> Weighed
    ensures { FillWeighed index cell result }
{
    Weighed {
        sort: fill_sort(index, cell.sort),
        weight: Weight::of(1).plus(cell.weight),
    }
}

fn weigh_slice(word: Weighed, high: u32, low: u32) -> Weighed
    ensures { SliceWeighed word high low result }
{
    Weighed {
        sort: slice_sort(word.sort, high, low),
        weight: Weight::of(1).plus(word.weight),
    }
}

fn weigh_widen(word: Weighed, wider: u32) -> Weighed
    ensures { WidenWeighed word wider result }
{
    Weighed {
        sort: widen_sort(word.sort, wider),
        weight: Weight::of(1).plus(word.weight),
    }
}

fn weigh_join(first: Weighed, second: Weighed) -> Weighed
    ensures { JoinWeighed first second result }
{
    Weighed {
        sort: join_sort(first.sort, second.sort),
        weight: Weight::of(1).plus(first.weight).plus(second.weight),
    }
}

/// The sort and the weight of an expression at a place.
pub fn weigh(view: &View, expr: &Expr) -> Weighed
    ensures { IsWeighed (scope_of view.now) expr.now result }
{
    match expr {
        Expr::Name(name) => leaf(name_sort(view, name)),
        Expr::Literal(_, width) => leaf(Some(Sort::Word(*width))),
        Expr::True | Expr::False | Expr::Done | Expr::OldDone => leaf(Some(Sort::Bool)),
        Expr::Old(name) => leaf(old_sort(view, name)),
        Expr::One(op, part) => weigh_one(*op, weigh(view, part)),
        Expr::Two(op, first, second) => weigh_two(*op, weigh(view, first), weigh(view, second)),
        Expr::Pick(test, first, second) => weigh_pick(
            weigh(view, test),
            weigh(view, first),
            weigh(view, second),
        ),
        Expr::Get(row, at) => weigh_get(weigh(view, row), weigh(view, at)),
        Expr::Set(row, at, cell) => weigh_set(weigh(view, row), weigh(view, at), weigh(view, cell)),
        Expr::Fill(index, cell) => weigh_fill(*index, weigh(view, cell)),
        Expr::Slice(word, high, low) => weigh_slice(weigh(view, word), *high, *low),
        Expr::Widen(word, wider) => weigh_widen(weigh(view, word), *wider),
        Expr::Join(first, second) => weigh_join(weigh(view, first), weigh(view, second)),
    }
}

/// The weight of an expression at a place.
pub fn weight_of(view: &View, expr: &Expr) -> Weight
    ensures { Weighs result (weight_of (scope_of view.now) expr.now) }
{
    weigh(view, expr).weight
}

/// The weight of these expressions together.
pub fn weights_of(view: &View, exprs: &[Expr]) -> Weight
    ensures { Weighs result (weights_of (weight_of (scope_of view.now)) exprs.now) }
{
    let mut total = Weight::of(0);
    for expr in exprs {
        total = total.plus(weight_of(view, expr));
    }
    total
}
