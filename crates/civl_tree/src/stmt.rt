// Statements.

use crate::expr::Expr;
use crate::list::List;
use crate::name::Name;

/// A statement. `YieldLoop(condition, invariant, body)` and `RankLoop(condition, rank, invariant, body)` are the two
/// loops with invariants; `Call(callee, arguments, results)`; `Spawn` belongs to version 2.
#[derive(Drop)]
pub enum Stmt {
    Assign(Name, Expr),
    Assert(Expr),
    If(Expr, List<Stmt>, List<Stmt>),
    While(Expr, List<Stmt>),
    YieldLoop(Expr, Expr, List<Stmt>),
    RankLoop(Expr, Expr, Expr, List<Stmt>),
    Call(Name, List<Expr>, List<Name>),
    Yield(Expr),
    Commit,
    Intro(Name, Expr),
    Spawn(Name, List<Expr>),
}
