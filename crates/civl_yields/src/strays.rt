// Stray `done` and `old`.
ghost use Rattle.std.specs.Prelude.{◌≡◌};
ghost use Rattle.std.specs.List.{list_any};
ghost use Rattle.civl_yields.specs.Places.{stray, no_leave, yield_leave, rank_leave, any_stray, action_stray, refines_stray, form_stray};
ghost use Rattle.civl_tree.specs.declared.stmt.Stmt.{out-Stmt};
ghost use Rattle.civl_yields.specs.inner.Marks.{leave_of};

use civl_tree::{Action, Choice, Expr, Proc, Stmt, Update};

/// What may stand in an expression beside names, literals and operations: `done`, and `old(..)`.
#[derive(Clone, Copy)]
pub(crate) struct Leave {
    pub done: bool,
    pub old: bool,
}

/// Whether a `done` or `old(..)` stands in an expression without leave.
pub(crate) fn stray(leave: Leave, expr: &Expr) -> bool
    ensures { result ≡ stray (leave_of leave) expr.now }
{
    match expr {
        Expr::Name(_) | Expr::Literal(_, _) | Expr::True | Expr::False => false,
        Expr::Done => !leave.done,
        Expr::Old(_) | Expr::OldDone => !leave.old,
        Expr::One(_, part) => stray(leave, part),
        Expr::Two(_, first, second) => stray(leave, first) || stray(leave, second),
        Expr::Pick(test, first, second) => stray(leave, test)
            || stray(leave, first)
            || stray(leave, second),
        Expr::Get(row, at) => stray(leave, row) || stray(leave, at),
        Expr::Set(row, at, cell) => stray(leave, row) || stray(leave, at) || stray(leave, cell),
        Expr::Fill(_, cell) => stray(leave, cell),
        Expr::Slice(word, _, _) => stray(leave, word),
        Expr::Widen(word, _) => stray(leave, word),
        Expr::Join(first, second) => stray(leave, first) || stray(leave, second),
    }
}

/// The same where neither may stand.
pub(crate) fn plainly_stray(expr: &Expr) -> bool
    ensures { result ≡ stray no_leave expr.now }
{
    stray(
        Leave {
            done: false,
            old: false,
        },
        expr,
    )
}

/// The same of any of these expressions.
pub(crate) fn any_stray(exprs: &[Expr]) -> bool
    ensures { result ≡ any_stray exprs.now }
{
    for expr in exprs {
        if plainly_stray(expr) {
            return true;
        }
    }
    false
}

fn offers_stray(choices: &[Choice]) -> bool
    ensures { result ≡ list_any (λ choice. stray no_leave choice.offer) choices.now }
{
    for choice in choices {
        if plainly_stray(&choice.offer) {
            return true;
        }
    }
    false
}

fn updates_stray(updates: &[Update]) -> bool
    ensures { result ≡ list_any (λ update. stray no_leave update.expr) updates.now }
{
    for update in updates {
        if plainly_stray(&update.expr) {
            return true;
        }
    }
    false
}

/// The same of an expression of an action.
pub(crate) fn action_stray(action: &Action) -> bool
    ensures { result ≡ action_stray action.now }
{
    offers_stray(action.choices.as_slice())
        || plainly_stray(&action.gate)
        || plainly_stray(&action.guard)
        || updates_stray(action.updates.as_slice())
}

/// The same of a value after a procedure's `with`.
pub(crate) fn refines_stray(proc: &Proc) -> bool
    ensures { result ≡ refines_stray proc.now.refines }
{
    match &proc.refines {
        Some(refines) => any_stray(refines.with.as_slice()),
        None => false,
    }
}

/// The same of the invariant of a yield or a yield loop.
fn yield_stray(layered: bool, inv: &Expr) -> bool
    ensures { result ≡ stray (yield_leave layered) inv.now }
{
    stray(
        Leave {
            done: layered,
            old: false,
        },
        inv,
    )
}

/// The same of the invariant of a rank loop.
fn rank_stray(layered: bool, inv: &Expr) -> bool
    ensures { result ≡ stray (rank_leave layered) inv.now }
{
    stray(
        Leave {
            done: layered,
            old: true,
        },
        inv,
    )
}

/// The same of an expression of a statement itself, in a procedure that is layered as told.
pub(crate) fn stmt_stray(layered: bool, stmt: &Stmt) -> bool
    ensures { result ≡ form_stray layered (out-Stmt stmt.now) }
{
    match stmt {
        Stmt::Assign(_, value) => plainly_stray(value),
        Stmt::Assert(fact) => plainly_stray(fact),
        Stmt::If(test, _, _) => plainly_stray(test),
        Stmt::While(test, _) => plainly_stray(test),
        Stmt::YieldLoop(test, inv, _) => plainly_stray(test) || yield_stray(layered, inv),
        Stmt::RankLoop(test, rank, inv, _) => plainly_stray(test)
            || plainly_stray(rank)
            || rank_stray(layered, inv),
        Stmt::Call(_, args, _) => any_stray(args.as_slice()),
        Stmt::Yield(inv) => yield_stray(layered, inv),
        Stmt::Commit => false,
        Stmt::Intro(_, value) => plainly_stray(value),
        Stmt::Spawn(_, args) => any_stray(args.as_slice()),
    }
}
