// The first `done` or `old(..)` that means nothing where it stands (E53).
ghost use Rattle.std.specs.Prelude.{◌≡◌, option_copied};
ghost use Rattle.std.specs.Option.{option_or};
ghost use Rattle.civl_tree.specs.declared.stmt.Stmt.{out-Stmt};
ghost use Rattle.civl_yields.specs.Places.{is_layered, no_leave, rank_leave, yield_leave};
ghost use Rattle.civl_subjects.specs.Parts.{first_told};
ghost use Rattle.civl_subjects.specs.Strays.{action_stray, any_stray, first_stray, form_stray, refines_stray, stmt_stray};
ghost use Rattle.civl_subjects.specs.inner.Meant.{leave_meant};

use civl_tree::{Action, Choice, Expr, Proc, Refines, Stmt, Update};

/// What may stand in an expression: `done`, and `old(..)`.
#[derive(Clone, Copy)]
pub(crate) struct Leave {
    pub done: bool,
    pub old: bool,
}

/// The first of two that is there.
fn either<'a>(first: Option<&'a Expr>, second: Option<&'a Expr>) -> Option<&'a Expr>
    ensures { option_copied result ≡ option_or (option_copied first.entry) (option_copied second.entry) }
{
    match first {
        Some(part) => Some(part),
        None => second,
    }
}

/// The first `done` or `old(..)` without leave.
fn first_stray(leave: Leave, expr: &Expr) -> Option<&Expr>
    ensures { option_copied result ≡ first_stray (leave_meant leave) expr.now }
{
    match expr {
        Expr::Done => { if leave.done { None } else { Some(expr) } }
        Expr::Old(_) => { if leave.old { None } else { Some(expr) } }
        Expr::OldDone => { if leave.old { None } else { Some(expr) } }
        Expr::Name(_) | Expr::Literal(_, _) | Expr::True | Expr::False => None,
        Expr::One(_, part) => first_stray(leave, part),
        Expr::Two(_, first, second) => {
            either(first_stray(leave, first), first_stray(leave, second))
        }
        Expr::Pick(test, first, second) => either(
            first_stray(leave, test),
            either(first_stray(leave, first), first_stray(leave, second)),
        ),
        Expr::Get(row, at) => either(first_stray(leave, row), first_stray(leave, at)),
        Expr::Set(row, at, cell) => either(
            first_stray(leave, row),
            either(first_stray(leave, at), first_stray(leave, cell)),
        ),
        Expr::Fill(_, cell) => first_stray(leave, cell),
        Expr::Slice(word, _, _) => first_stray(leave, word),
        Expr::Widen(word, _) => first_stray(leave, word),
        Expr::Join(first, second) => {
            either(first_stray(leave, first), first_stray(leave, second))
        }
    }
}

/// The first of an expression in which neither may stand.
pub(crate) fn plain_stray(expr: &Expr) -> Option<&Expr>
    ensures { option_copied result ≡ first_stray no_leave expr.now }
{
    let leave = Leave {
        done: false,
        old: false,
    };
    first_stray(leave, expr)
}

/// The first of these expressions, in which neither may stand.
pub(crate) fn any_stray(exprs: &[Expr]) -> Option<&Expr>
    ensures { option_copied result ≡ any_stray exprs.now }
{
    for expr in exprs {
        if let Some(part) = plain_stray(expr) {
            return Some(part);
        }
    }
    None
}

fn offers_stray(choices: &[Choice]) -> Option<&Expr>
    ensures { option_copied result ≡ first_told (λ choice. first_stray no_leave choice.offer) choices.now }
{
    for choice in choices {
        if let Some(part) = plain_stray(&choice.offer) {
            return Some(part);
        }
    }
    None
}

fn updates_stray(updates: &[Update]) -> Option<&Expr>
    ensures { option_copied result ≡ first_told (λ update. first_stray no_leave update.expr) updates.now }
{
    for update in updates {
        if let Some(part) = plain_stray(&update.expr) {
            return Some(part);
        }
    }
    None
}

/// The first of an action.
pub(crate) fn action_stray(action: &Action) -> Option<&Expr>
    ensures { option_copied result ≡ action_stray action.now }
{
    let offers = offers_stray(action.choices.as_slice());
    let gate = plain_stray(&action.gate);
    let guard = plain_stray(&action.guard);
    let updates = updates_stray(action.updates.as_slice());
    either(offers, either(gate, either(guard, updates)))
}

/// The first of the values after `with`.
pub(crate) fn refines_stray(refines: &Option<Refines>) -> Option<&Expr>
    ensures { option_copied result ≡ refines_stray refines.now }
{
    match refines {
        Some(refines) => any_stray(refines.with.as_slice()),
        None => None,
    }
}

/// The first of the invariant of a yield or a yield loop, in a procedure that is layered as told.
fn yield_stray(layered: bool, inv: &Expr) -> Option<&Expr>
    ensures { option_copied result ≡ first_stray (yield_leave layered) inv.now }
{
    let leave = Leave {
        done: layered,
        old: false,
    };
    first_stray(leave, inv)
}

/// The first of the invariant of a rank loop.
fn rank_stray(layered: bool, inv: &Expr) -> Option<&Expr>
    ensures { option_copied result ≡ first_stray (rank_leave layered) inv.now }
{
    let leave = Leave {
        done: layered,
        old: true,
    };
    first_stray(leave, inv)
}

/// The first of a statement in a procedure that is layered as told.
fn form_stray(layered: bool, stmt: &Stmt) -> Option<&Expr>
    ensures { option_copied result ≡ form_stray layered (out-Stmt stmt.now) }
{
    match stmt {
        Stmt::Assign(_, value) => plain_stray(value),
        Stmt::Assert(fact) => plain_stray(fact),
        Stmt::If(test, _, _) => plain_stray(test),
        Stmt::While(test, _) => plain_stray(test),
        Stmt::YieldLoop(test, inv, _) => { either(plain_stray(test), yield_stray(layered, inv)) }
        Stmt::RankLoop(test, rank, inv, _) => either(
            plain_stray(test),
            either(plain_stray(rank), rank_stray(layered, inv)),
        ),
        Stmt::Call(_, args, _) => any_stray(args.as_slice()),
        Stmt::Yield(inv) => yield_stray(layered, inv),
        Stmt::Commit => None,
        Stmt::Intro(_, value) => plain_stray(value),
        Stmt::Spawn(_, args) => any_stray(args.as_slice()),
    }
}

/// The first of a statement.
pub(crate) fn stmt_stray<'a>(proc: &Proc, stmt: &'a Stmt) -> Option<&'a Expr>
    ensures { option_copied result ≡ stmt_stray proc.now stmt.now }
{
    form_stray(proc.refines.is_some(), stmt)
}
