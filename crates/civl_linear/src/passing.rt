// Arguments and results that stand for linear values.
ghost use Rattle.std.specs.Prelude.{◌≡◌};
ghost use Rattle.civl_tree.specs.rules.Names.{has_name};
ghost use Rattle.civl_linear.specs.Modes.{plain_name, passed_names, given_names};
ghost use Rattle.civl_linear.specs.inner.Wants.{wants};

use crate::modes::{Want, is_given, wants};
use civl_tree::{Expr, Name, Param};
use civl_types::names::same_name;

/// Whether the expression is this plain name.
fn is_plainly(expr: &Expr, name: &Name) -> bool
    ensures { result ≡ has_name (plain_name expr.now) name.now }
{
    match expr {
        Expr::Name(plain) => same_name(name, plain),
        Expr::Literal(_, _) => false,
        Expr::True => false,
        Expr::False => false,
        Expr::Done => false,
        Expr::Old(_) => false,
        Expr::OldDone => false,
        Expr::One(_, _) => false,
        Expr::Two(_, _, _) => false,
        Expr::Pick(_, _, _) => false,
        Expr::Get(_, _) => false,
        Expr::Set(_, _, _) => false,
        Expr::Fill(_, _) => false,
        Expr::Slice(_, _, _) => false,
        Expr::Widen(_, _) => false,
        Expr::Join(_, _) => false,
    }
}

/// Whether this plain name stands for a parameter that is looked at.
#[tactic(auto, using(crate::proofs::Passed::passed))]
pub(crate) fn is_passed_name(want: Want, params: &[Param], args: &[Expr], name: &Name) -> bool
    ensures { result ≡ has_name (passed_names (wants want) params.now args.now) name.now }
{
    for (at, param) in params.iter().enumerate() {
        match args.get(at) {
            Some(arg) => {
                if wants(want, param.mode) && is_plainly(arg, name) {
                    return true;
                }
            }
            None => return false,
        }
    }
    false
}

/// Whether a linear value is given to a result of this name.
#[tactic(auto, using(crate::proofs::Passed::passed))]
pub(crate) fn is_given_name(outs: &[Param], results: &[Name], name: &Name) -> bool
    ensures { result ≡ has_name (given_names outs.now results.now) name.now }
{
    for (at, out) in outs.iter().enumerate() {
        match results.get(at) {
            Some(given) => {
                if is_given(out.mode) && same_name(name, given) {
                    return true;
                }
            }
            None => return false,
        }
    }
    false
}
