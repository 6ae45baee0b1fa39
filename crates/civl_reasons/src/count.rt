// How many tokens an expression has.
ghost use Rattle.std.specs.Prelude.{◌≡◌, ◌<◌, ◌^◌, length};
ghost use Rattle.civl_tree.specs.Spelling.{spell_expr};

use civl_tree::Expr;

/// The number of tokens that spell an expression. No spelling is made, and nothing is allocated.
#[tactic(auto, using(crate::proofs::Counts::counts))]
pub fn expr_count(expr: &Expr) -> usize
    requires { length (spell_expr expr.now) < 2 ^ 64 }
    ensures { result ≡ length (spell_expr expr.now) }
{
    match expr {
        Expr::Name(_) => 1,
        Expr::Literal(_, _) => 3,
        Expr::True => 1,
        Expr::False => 1,
        Expr::Done => 1,
        Expr::Old(_) => 4,
        Expr::OldDone => 4,
        Expr::One(_, a) => expr_count(a.get()) + 3,
        Expr::Two(_, a, b) => expr_count(a.get()) + expr_count(b.get()) + 3,
        Expr::Pick(test, a, b) => {
            expr_count(test.get()) + expr_count(a.get()) + expr_count(b.get()) + 4
        }
        Expr::Get(row, at) => expr_count(row.get()) + expr_count(at.get()) + 4,
        Expr::Set(row, at, cell) => {
            expr_count(row.get()) + expr_count(at.get()) + expr_count(cell.get()) + 5
        }
        Expr::Fill(_, cell) => expr_count(cell.get()) + 5,
        Expr::Slice(a, _, _) => expr_count(a.get()) + 7,
        Expr::Widen(a, _) => expr_count(a.get()) + 5,
        Expr::Join(a, b) => expr_count(a.get()) + expr_count(b.get()) + 4,
    }
}
