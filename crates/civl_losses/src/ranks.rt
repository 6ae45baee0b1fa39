// A rank that stays.
ghost use Rattle.std.specs.Prelude.{◌≡◌, map, option_copied};
ghost use Rattle.civl_tree.specs.declared.stmt.Stmt.{out-Stmt};
ghost use Rattle.civl_tree.specs.Numbering.{statements_of};
ghost use Rattle.civl_conditions.specs.Assumed.{layer_rank, cut_rank};
ghost use Rattle.civl_losses.specs.Losses.{rank_value, stays, rank_loss};
ghost use Rattle.civl_losses.specs.inner.Routes.{begun_on, end_of};

use crate::loss::Loss;
use crate::route::Route;
use civl_assumed::plain;
use civl_bits::Value;
use civl_firing::Store;
use civl_firing::expressions::value;
use civl_firing::values::{is_true, two};
use civl_layers::{Cut, CutKind};
use civl_tree::{Expr, Proc, Stmt, Two};

/// The rank of a statement that is a rank loop.
fn stmt_rank(stmt: &Stmt) -> Option<&Expr>
    ensures { option_copied result ≡ layer_rank (out-Stmt stmt.now) }
{
    match stmt {
        Stmt::RankLoop(_, rank, _, _) => Some(rank),
        Stmt::YieldLoop(_, _, _) => None,
        Stmt::Yield(_) => None,
        Stmt::Assign(_, _) => None,
        Stmt::Assert(_) => None,
        Stmt::If(_, _, _) => None,
        Stmt::While(_, _) => None,
        Stmt::Call(_, _, _) => None,
        Stmt::Commit => None,
        Stmt::Intro(_, _) => None,
        Stmt::Spawn(_, _) => None,
    }
}

/// The rank of a cut, where it has one. These are all statements of the procedure.
fn rank_of<'a>(proc: &Proc, stmts: &[&'a Stmt], cut: Cut) -> Option<&'a Expr>
    requires { map (λ s. s.now) stmts.now ≡ statements_of proc.now.body }
    ensures { option_copied result ≡ cut_rank proc.now cut }
{
    match cut.kind {
        CutKind::Entry => None,
        CutKind::Yield | CutKind::YieldLoop | CutKind::RankLoop => {
            match stmts.get(cut.statement as usize) {
                Some(stmt) => stmt_rank(stmt),
                None => None,
            }
        }
    }
}

/// The value of a rank in a state of the path.
fn rank_value(route: &Route<'_>, store: &Store, locals: &[Value], rank: &Expr) -> Value
    ensures { result ≡ rank_value route.now.program.now route.now.proc.now store.now locals.now rank.now }
{
    let globals = route.program.globals.as_slice();
    let noted = plain(globals, route.proc, store.values.as_slice(), locals);
    value(&noted, rank)
}

/// A rank that isn't less after than before.
fn stays(before: &Value, after: &Value) -> Option<Loss>
    ensures { result ≡ stays before.now after.now }
{
    if is_true(two(Two::Lt, *after, *before)) {
        None
    } else {
        Some(Loss::RankStays(*before, *after))
    }
}

/// The rank of this loop at the beginning and back at the loop, if it isn't less there.
fn rank_stays(route: &Route<'_>, rank: &Expr) -> Option<Loss>
    ensures { result ≡ stays (rank_value route.now.program.now route.now.proc.now (begun_on route.now).store (begun_on route.now).locals
        rank.now) (rank_value route.now.program.now route.now.proc.now (end_of route.now).store (end_of route.now).locals rank.now) }
{
    let here = route.beginning;
    let there = &route.walked.end;
    let before = rank_value(route, &here.store, here.locals.as_slice(), rank);
    let after = rank_value(route, &there.store, there.locals.as_slice(), rank);
    stays(&before, &after)
}

/// Rank: the rank at both ends, if the path ends at the loop from which it begins, and the rank isn't less there.
pub(crate) fn rank_loss(route: &Route<'_>, end: Option<usize>) -> Option<Loss>
    requires stmts { map (λ s. s.now) route.now.stmts.now ≡ statements_of route.now.proc.now.body }
    ensures { result ≡ rank_loss route.now.program.now route.now.proc.now route.now.number route.now.cut (begun_on route.now) end
        (end_of route.now) }
{
    match end {
        Some(end) => {
            if end != route.number as usize {
                return None;
            }
            match rank_of(route.proc, route.stmts, route.cut) {
                Some(rank) => rank_stays(route, rank),
                None => None,
            }
        }
        None => None,
    }
}
