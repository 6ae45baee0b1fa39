// The first part of an expression that breaks a rule.
ghost use Rattle.std.specs.Prelude.{◌≡◌, option_copied};
ghost use Rattle.std.specs.Option.{option_or};
ghost use Rattle.civl_subjects.specs.Parts.{first_part};
ghost use Rattle.civl_subjects.specs.Places.{part_breaks};
ghost use Rattle.civl_types.specs.Views.{scope_of};

use crate::expr_rule::ExprRule;
use crate::fitting::part_breaks;
use civl_tree::Expr;
use civl_types::view::View;

/// The first of two that is there.
fn either<'a>(first: Option<&'a Expr>, second: Option<&'a Expr>) -> Option<&'a Expr>
    ensures { option_copied result ≡ option_or (option_copied first.entry) (option_copied second.entry) }
{
    match first {
        Some(part) => Some(part),
        None => second,
    }
}

/// The first part of an expression that breaks a rule.
#[tactic(auto, using(crate::proofs::Inner::inner))]
pub(crate) fn first_part<'a>(rule: ExprRule, view: &View, expr: &'a Expr) -> Option<&'a Expr>
    ensures { option_copied result ≡ first_part (part_breaks rule (scope_of view.now)) expr.now }
{
    if part_breaks(rule, view, expr) {
        return Some(expr);
    }
    match expr {
        Expr::Name(_) | Expr::Old(_) | Expr::Literal(_, _) => None,
        Expr::True | Expr::False | Expr::Done | Expr::OldDone => None,
        Expr::One(_, part) => first_part(rule, view, part),
        Expr::Two(_, first, second) => either(
            first_part(rule, view, first),
            first_part(rule, view, second),
        ),
        Expr::Pick(test, first, second) => either(
            first_part(rule, view, test),
            either(
                first_part(rule, view, first),
                first_part(rule, view, second),
            ),
        ),
        Expr::Get(row, at) => either(first_part(rule, view, row), first_part(rule, view, at)),
        Expr::Set(row, at, cell) => either(
            first_part(rule, view, row),
            either(first_part(rule, view, at), first_part(rule, view, cell)),
        ),
        Expr::Fill(_, cell) => first_part(rule, view, cell),
        Expr::Slice(word, _, _) => first_part(rule, view, word),
        Expr::Widen(word, _) => first_part(rule, view, word),
        Expr::Join(first, second) => {
            either(
                first_part(rule, view, first),
                first_part(rule, view, second),
            )
        }
    }
}
