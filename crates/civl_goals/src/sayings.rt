// Expressions that say something of a place.
ghost use Rattle.std.specs.Prelude.{◌≡◌, ◌^◌, ◌≤◌};
ghost use Rattle.civl_tree.specs.rules.Scopes.{sort_in, bind_globals};
ghost use Rattle.civl_tree.specs.rules.Sorts.{is_truth};
ghost use Rattle.civl_tree.specs.rules.Exprs.{literal_fits, is_index};
ghost use Rattle.civl_goals.specs.Outlines.{exists_on_top, top_globals};
ghost use Rattle.civl_goals.specs.Rules.{says_of};
ghost use Rattle.civl_goals.specs.inner.Sayings.{scope_of, fitting_sort};

use civl_tree::{Expr, Global, Name, Proc, Program, Sort};
use civl_types::names::same_name;
use civl_types::sorts::{
    fill_sort, get_sort, join_sort, one_sort, pick_sort, set_sort, slice_sort, two_sort, widen_sort,
};
use civl_types::view::{View, name_sort};

/// Where an expression of an outline stands: in a hold, or before a statement of a procedure.
#[derive(Clone, Copy)]
pub enum Place<'a> {
    Hold(&'a Program),
    Note(&'a Program, &'a Proc),
}

/// Whether a global exists in the topmost program.
pub(crate) fn exists_on_top(program: &Program, global: &Global) -> bool
    ensures { result ≡ exists_on_top program.now global.now }
{
    global.first <= program.layers && program.layers <= global.last
}

/// The sort of a global of the topmost program.
fn top_sort(program: &Program, name: &Name) -> Option<Sort>
    ensures { result ≡ sort_in (bind_globals (top_globals program.now)) name.now }
{
    for global in program.globals.as_slice() {
        if exists_on_top(program, global) && same_name(&global.name, name) {
            return Some(global.sort);
        }
    }
    None
}

/// The sort of a name in an expression that stands there.
#[tactic(auto, using(civl_types::proofs::Scoping::sort_in_append))]
fn sort_at(place: &Place, name: &Name) -> Option<Sort>
    ensures { result ≡ sort_in (scope_of place.now).names name.now }
{
    match place {
        Place::Hold(program) => top_sort(program, name),
        Place::Note(program, proc) => {
            if let Some(sort) = top_sort(program, name) {
                return Some(sort);
            }
            name_sort(&View::Body(program, proc), name)
        }
    }
}

/// 2 to a number up to 32.
fn power(exponent: u32) -> u64
    requires { exponent ≤ 32 }
    ensures { result ≡ 2 ^ exponent }
{
    1 << exponent
}

/// Whether a literal is a word of 1 to 32 bits.
fn literal_fits(value: u32, width: u32) -> bool
    ensures { result ≡ literal_fits value width }
{
    if 1 <= width && width <= 32 {
        u64::from(value) < power(width)
    } else {
        false
    }
}

/// Whether a row's index may have so many bits.
fn is_index(index: u32) -> bool
    ensures { result ≡ is_index index }
{
    1 <= index && index <= 6
}

/// The sort of an expression that stands there, where its names are known, its literals and indices in range, and neither
/// `done` nor `old(..)` stands in it.
fn fitting_sort(place: &Place, expr: &Expr) -> Option<Sort>
    ensures { result ≡ fitting_sort (scope_of place.now) expr.now }
{
    match expr {
        Expr::Name(name) => sort_at(place, name),
        Expr::Literal(value, width) => {
            if literal_fits(*value, *width) {
                Some(Sort::Word(*width))
            } else {
                None
            }
        }
        Expr::True | Expr::False => Some(Sort::Bool),
        Expr::Done | Expr::Old(_) | Expr::OldDone => None,
        Expr::One(op, part) => one_sort(*op, fitting_sort(place, part)),
        Expr::Two(op, first, second) => two_sort(
            *op,
            fitting_sort(place, first),
            fitting_sort(place, second),
        ),
        Expr::Pick(test, first, second) => pick_sort(
            fitting_sort(place, test),
            fitting_sort(place, first),
            fitting_sort(place, second),
        ),
        Expr::Get(row, at) => get_sort(fitting_sort(place, row), fitting_sort(place, at)),
        Expr::Set(row, at, cell) => set_sort(
            fitting_sort(place, row),
            fitting_sort(place, at),
            fitting_sort(place, cell),
        ),
        Expr::Fill(index, cell) => {
            if is_index(*index) {
                fill_sort(*index, fitting_sort(place, cell))
            } else {
                None
            }
        }
        Expr::Slice(word, high, low) => slice_sort(fitting_sort(place, word), *high, *low),
        Expr::Widen(word, wider) => widen_sort(fitting_sort(place, word), *wider),
        Expr::Join(first, second) => {
            join_sort(fitting_sort(place, first), fitting_sort(place, second))
        }
    }
}

/// Whether it is the sort of bools.
fn is_truth(sort: Option<Sort>) -> bool
    ensures { result ≡ is_truth sort }
{
    match sort {
        Some(Sort::Bool) => true,
        Some(Sort::Word(_)) | Some(Sort::Row(_, _)) | None => false,
    }
}

/// Whether an expression that stands there is a bool over its names, in range, without `done` and `old(..)`.
pub(crate) fn says(place: &Place, expr: &Expr) -> bool
    ensures { result ≡ says_of (scope_of place.now) expr.now }
{
    is_truth(fitting_sort(place, expr))
}
